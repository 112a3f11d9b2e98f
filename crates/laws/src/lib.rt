// Definitions and laws on refusals, counts and lists that the other crates share. No code.

#![tactic(auto)]
