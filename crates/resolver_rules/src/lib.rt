// What is asked of a draft with paths, in plain words: laws of the definition, no code.

#![tactic(auto)]
