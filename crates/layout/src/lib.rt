// The layout of the lent state: definitions in specs/, their laws in proofs/.
#![tactic(auto)]
