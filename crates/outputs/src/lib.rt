// How long the output of the program `replay` can be: the statement in specs/, its proof in proofs/.
#![tactic(auto)]
