//! Makes a portable picture of a sixel string: what one terminal shows of it, without the pixels round it.
#![tactic(auto)]

mod extent;
mod hiding;
mod making;
mod marking;
mod mending;
mod numbering;
mod terminal;

pub use extent::Extent;
pub use making::{extent_of, mend, mend_measured, size_of};
pub use mending::{MendFault, Mended, Mending};
