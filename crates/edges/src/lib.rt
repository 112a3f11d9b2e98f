// FORMAT.md's worked examples, computed from the definitions. No code.

#![tactic(auto)]
