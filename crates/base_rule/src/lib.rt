// Acceptance before there was one spelling in the path index, and the rule that was added to it: laws of the definitions, no code.

#![tactic(auto)]
