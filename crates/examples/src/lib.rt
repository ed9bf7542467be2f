// No code: document 01's examples P1 to P14 and those of document 02, computed by the rules.
#![tactic(auto)]
