//! What no contract of `sixel_check` and `sixel_scan` says and no row shows: how often they call their source, when a
//! string is told, and which event a checker expects.
#![tactic(auto)]

#[cfg(test)]
mod fills;
#[cfg(test)]
mod sources;
#[cfg(test)]
mod steps;
