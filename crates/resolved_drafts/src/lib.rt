// What a resolved draft keeps and breaks: laws of the definition, no code.

#![tactic(auto)]
