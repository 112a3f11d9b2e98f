// What is known of every written image: proofs alone, no code.

#![tactic(auto)]
