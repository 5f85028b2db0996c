// What a barrier is set up from, and the range of its tasks, over plain values: no state is needed. Kinds and R (`kinds`), the tables of parents, starts
// and work lengths (`tables`), the reasons that refuse a setup (`reasons`), and the range of a task and of what all tasks share (`range`). What each call
// answers is defined in specs/, and the modules here follow its files. Every function is total, and its contract is an equation with its definition.
#![tactic(auto)]

pub mod kinds;
pub mod range;
pub mod reasons;
pub mod tables;
