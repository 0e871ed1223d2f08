//! The named terminals: xterm, mlterm, foot and konsole, and what each shows of a document.
#![tactic(auto)]

mod at_once;
mod konsole_at_once;
mod named;
mod showing;

pub use at_once::show_at_once;
pub use konsole_at_once::{konsole_screen, low_konsole_screen};
pub use named::Named;
pub use showing::{ShowFault, show_on};
