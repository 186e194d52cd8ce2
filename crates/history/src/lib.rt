// Theorems alone: what every history of calls keeps (proofs/Theorems.antt). There is no code here.
#![tactic(auto)]
