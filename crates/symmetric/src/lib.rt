// The laws of the symmetric barrier: there is no code here.
#![tactic(auto)]
