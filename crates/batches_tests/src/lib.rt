// Tests of batches: each expected place and value is by the rules of the format.
#![tactic(auto)]

#[cfg(test)]
mod cells;
#[cfg(test)]
mod commands;
#[cfg(test)]
mod pieces;
#[cfg(test)]
mod tables;
#[cfg(test)]
mod written;
