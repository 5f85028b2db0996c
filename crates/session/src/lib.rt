// A session from a program in C or Rust: the laws of a state that is kept as a list of numbers between the exported calls. There is no code here;
// specs/Session.antt has the words, proofs/SessionLaws.antt the laws.
#![tactic(auto)]
