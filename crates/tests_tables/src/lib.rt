//! Vectors of tables and of the faults that they have, as the documents of the project say them.
#![tactic(auto)]

#[cfg(test)]
mod tests;
