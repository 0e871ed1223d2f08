//! Which of the named terminals show a sixel string differently, and where.
#![tactic(auto)]

mod apart;
mod comparison;
mod drawings;
mod fault;
mod pixels;
mod showing;
mod view;

pub use comparison::{Comparison, Standing};
pub use fault::DifferFault;
pub use pixels::first_unlike;
pub use showing::{differ, views, views_measured};
pub use view::{View, Views};
