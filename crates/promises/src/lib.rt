// The users' demands as theorems of the gateway. No functions: see specs/ and proofs/.
#![tactic(auto)]
