// Cases worked out by hand from the papers, over the definitions that the contracts cite: there is no code here.
#![tactic(auto)]
