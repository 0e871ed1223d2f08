//! The program over any streams and any folder: files, messages and exit statuses.
#![tactic(auto)]

mod checks;
mod counts;
mod dashes;
mod execution;
mod files;
mod folder;
mod nowhere;
mod peeked;
mod shown;
mod streams;
mod terminals;

pub use execution::execute;
pub use folder::{Folder, System};
pub use peeked::Peeked;
pub use sixel_messages::Unopened;
pub use streams::{Errors, Input, Output, status_of};
pub use terminals::Terminals;
