// What is written of a trace that comes in pieces is its listing: the loop over turns and reads, and its theorem. There is no code here.
#![tactic(auto)]
