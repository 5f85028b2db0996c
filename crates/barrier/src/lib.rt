// What is proved of each barrier, and what follows for all of them: there is no code here.
#![tactic(auto)]
