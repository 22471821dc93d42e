// Mathematics that no one layer owns, said once: the definitions are in specs/, their laws in proofs/. There is no code here.
#![tactic(auto)]
