// Demand 3, ready's promise, the law of the tallies and the claim on kinds 1 and 4, over the definitions that the contracts cite: there is no code here.
#![tactic(auto)]
