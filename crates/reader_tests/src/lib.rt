// Tests of the reader: each expected word and place is by the rules of the language.
#![tactic(auto)]

#[cfg(test)]
mod words;
