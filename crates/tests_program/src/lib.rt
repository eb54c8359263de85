//! What only a call of the library, or a reader, a writer or a folder of a test shows: the whole runs
//! are the cases in the folder `cases`.
#![tactic(auto)]

#[cfg(test)]
mod tests;
