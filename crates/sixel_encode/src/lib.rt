//! Pictures as sixel text (DEC EK-VT3XX-GP-002, the chapter on sixel graphics), exactly one text for each picture.
#![tactic(auto)]

mod band;
mod columns;
mod commands;
mod digits;
mod gaps;
mod groups;
mod heads;
mod lanes;
mod line;
mod parts;
mod repeats;
mod rows;
mod writing;

pub use writing::{EncodeFault, encode};
