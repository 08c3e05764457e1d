// Laws of events and takings, stated once about the definitions that the gateway's contracts cite. No functions: see specs/ and proofs/.
#![tactic(auto)]
