// Theorems alone: what a saved log of the console tells (proofs/Theorems.antt). There is no code here.
#![tactic(auto)]
