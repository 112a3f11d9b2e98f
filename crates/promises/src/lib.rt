// What holds of every image that a load accepts. No code.

#![tactic(auto)]
