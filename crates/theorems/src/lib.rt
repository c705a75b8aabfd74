// What is proved of the rules for the auditor: the demands, as statements in specs/ and proofs in proofs/. No
// code.
#![tactic(auto)]
