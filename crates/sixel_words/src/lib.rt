//! The command line: what its arguments ask for, and what is said if they name no task.
#![tactic(auto)]

mod arguments;
mod check_words;
mod colours;
mod differ_words;
mod explain_errors;
mod fit_words;
mod ignored;
mod options;
mod show_errors;
mod show_words;
mod telling;
mod words;

pub use arguments::{Arguments, Process, arguments_of, task_in};
pub use telling::tell;
pub use words::{WordsFault, parse_request, parse_words};
