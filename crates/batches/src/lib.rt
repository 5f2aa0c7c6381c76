// Batches: tables as bytes, checked, read and written.
#![tactic(auto)]

mod checker;
pub mod checking;
pub mod columns;
pub mod command;
mod command_bytes;
pub mod layout;
mod reads;
pub mod writer;
pub mod writing;
