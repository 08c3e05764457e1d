// Laws of findings: each is a message, and says what stands in its block. No functions: see specs/ and proofs/.
#![tactic(auto)]
