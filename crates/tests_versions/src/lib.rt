//! Vectors of versions, keys, clauses, cuts and sets of versions, as the documents of the project say them.
#![tactic(auto)]

#[cfg(test)]
mod tests;
