// Demand 3 of what a host hears: its statement in specs/, its proof in proofs/. What is assumed of each call is its contract in crate store.
#![tactic(auto)]
