// The reader: from the text of a query to its tree.
#![tactic(auto)]

pub mod numbers;
pub mod scanning;
mod start;
pub mod word;
