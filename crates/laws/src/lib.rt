// No code: general notions in specs/ and laws of them in proofs/, for the rules and proofs of every crate.
#![tactic(auto)]
