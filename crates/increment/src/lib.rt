// The laws of the increment barrier: there is no code here.
#![tactic(auto)]
