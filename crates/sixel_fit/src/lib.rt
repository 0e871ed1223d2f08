//! Pictures that named terminals show whole: rows below a picture, or why there is none.
#![tactic(auto)]

mod hues;
mod making;
mod padding;

pub use making::{FitFault, Fitting, fit};
