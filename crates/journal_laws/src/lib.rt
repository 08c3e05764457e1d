// Laws of a journal that is held: what storing and taking keep, the room rule's guarantees, each line a queue. No functions: see specs/ and proofs/.
#![tactic(auto)]
