// No code: steps that proofs by hand, of functions over lists of structs, share.
#![tactic(auto)]
