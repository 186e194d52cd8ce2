// Theorems alone: what is promised of priorities (proofs/Order.antt, proofs/Theorems.antt). There is no code here.
#![tactic(auto)]
