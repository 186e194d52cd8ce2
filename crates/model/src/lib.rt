// The periodic-delayed model, in specs/, and its laws, in proofs/. There is no code here.
#![tactic(auto)]
