// Words of a machine as the standards write them, and laws of bits. There is no code here: see
// specs/ and proofs/.
#![tactic(auto)]
