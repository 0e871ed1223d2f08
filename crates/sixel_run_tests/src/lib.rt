//! Tests of the tasks of the program, over their public calls.
#![tactic(auto)]

#[cfg(test)]
mod blocks;
#[cfg(test)]
mod in_turn;
#[cfg(test)]
mod runs;
#[cfg(test)]
mod scans;
