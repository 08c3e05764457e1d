// The gateway of eight lines by value: what an event and a taking come to. No functions: see specs/. What hosts call is proved to come to the same.
#![tactic(auto)]
