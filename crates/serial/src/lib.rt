// The serialisation theorem over any state with lines and a journal. No functions: see specs/ and proofs/.
#![tactic(auto)]
