//! Tests of the program over folders in memory. `tests/rows` and `tests/streams.py` have those over the system's.
#![tactic(auto)]

#[cfg(test)]
mod files;
