//! What is written and said of each input: lines with a file's name or as JSON, refusals, notes and hints.
#![tactic(auto)]

mod formats;
mod hints;
mod names;
mod notes;
mod objects;
mod reporting;
mod saying;
mod shown;
mod unopened;

pub use formats::{Format, PREFIX_LENGTH, format_of, is_undecided};
pub use hints::{Causes, put_hints};
pub use notes::{has_wrapped, put_wrapped};
pub use reporting::{Labelled, name_of, say_answer, say_unopened};
pub use saying::{put_said, put_unopened};
pub use shown::Shown;
pub use unopened::Unopened;
