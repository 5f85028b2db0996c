// The laws of the tree barrier: there is no code here.
#![tactic(auto)]
