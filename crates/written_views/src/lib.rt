// What a reader sees of a written image is what its author wrote: proofs alone, no code.

#![tactic(auto)]
