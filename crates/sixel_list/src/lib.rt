//! Lists the events of a sixel picture, a line each.
#![tactic(auto)]

pub mod list;
mod list_lines;
mod sixel_line;
