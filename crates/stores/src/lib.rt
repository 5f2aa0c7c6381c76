// Stores: what tells tables, and the questions that any store answers.
#![tactic(auto)]

pub mod batch_store;
pub mod batched;
pub mod faults;
pub mod keeping;
pub mod kept;
pub mod kept_tables;
pub mod names;
pub mod offered;
pub mod pair;
pub mod paired;
mod rows;
pub mod series;
pub mod series_store;
pub mod shelf;
pub mod shelved;
pub mod store;
