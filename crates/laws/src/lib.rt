// Laws of the rules that the code and the theorems cite: sums, rounding, limits, fields, refusals, ceilings
// of figures. Everything is in proofs/; no definition that a reader must believe stands here, and no code.
#![tactic(auto)]
