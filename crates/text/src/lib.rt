// Decimal numbers in texts: read, and printed on a page. No machine is named here.
#![tactic(auto)]

pub mod print;
pub mod read;
