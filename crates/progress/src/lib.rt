// The counting argument of the progress rule, over any machine: there is no code here.
#![tactic(auto)]
