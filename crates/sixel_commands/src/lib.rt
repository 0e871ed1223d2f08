//! The subcommands and their options over clap, their help, and what usage errors say.
#![tactic(auto)]

mod commands;
mod usage_errors;

pub use commands::sixel_command;
pub use usage_errors::{
    Maker, NamesFault, background_error, conflict_error, lone_pad_error, sheet_error,
    terminal_error, unchecked_error, uncoloured_error, undiffered_error, unfitted_error,
    unnamed_error, unpadded_error, unsurveyed_error, usage_error, with_tip,
};
