// The marked examples (docs/RULES.md, section 8) and further ones, computed from the definitions. See specs/.
#![tactic(auto)]
