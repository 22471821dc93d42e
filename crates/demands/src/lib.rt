// Theorems alone: what is demanded (docs/RULES.md, section 13), about the definitions that the other crates' contracts cite. See specs/ and proofs/.
#![tactic(auto)]
