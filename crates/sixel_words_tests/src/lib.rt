//! Tests of the arguments of the process, in memory. Rows for the built program hold what they ask for.
#![tactic(auto)]

#[cfg(test)]
mod arguments;
