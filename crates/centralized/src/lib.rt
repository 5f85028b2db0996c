// The laws of the barrier that counts down: there is no code here.
#![tactic(auto)]
