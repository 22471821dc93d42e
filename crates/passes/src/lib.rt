// Theorems alone: what a machine is, and what any pass of one does, whatever machine it is (docs/RULES.md, section 13). See specs/ and proofs/.
#![tactic(auto)]
