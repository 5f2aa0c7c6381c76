// Tests of stores: each expected answer is by what the store is said to tell.
#![tactic(auto)]

#[cfg(test)]
mod batch_stores;
#[cfg(test)]
mod pairs;
#[cfg(test)]
mod pieces;
#[cfg(test)]
mod series;
#[cfg(test)]
mod shelves;
