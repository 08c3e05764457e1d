// No functions: what a host has is the gateway, stated and proved of the definitions of `calls`, which the functions of `ngachodui` have for theirs.
#![tactic(auto)]
