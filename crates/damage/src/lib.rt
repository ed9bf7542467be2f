// No code: a right GS1-128 symbol that was damaged once is refused.
#![tactic(auto)]
