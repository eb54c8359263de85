//! Why packages have their verdicts, in worked cases.
#![tactic(auto)]

#[cfg(test)]
mod tests;
