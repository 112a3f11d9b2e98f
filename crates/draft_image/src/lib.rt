// The writer: the image that a draft becomes.

#![tactic(auto)]
