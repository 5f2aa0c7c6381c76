// The values that a table's cells hold: their arithmetic, comparison and encoding, and the names of
// tables and columns.
#![tactic(auto)]

pub mod area;
mod arithmetic;
pub mod bytes;
mod cells;
mod comparing;
pub mod keyword;
pub mod kinds;
mod make;
pub mod name;
pub mod naming;
pub mod sixteen;
mod types;
pub mod value;
