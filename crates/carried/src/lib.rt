// Demand 3 on the bytes that a host lends: its statement in specs/, its proof in proofs/.
#![tactic(auto)]
