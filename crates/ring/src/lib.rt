// The laws of the ring barrier: there is no code here.
#![tactic(auto)]
