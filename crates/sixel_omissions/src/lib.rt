//! Where the commands of a string leave out numbers. Only its bytes tell: a `#` without a number and `#0` are the same
//! event.
#![tactic(auto)]

mod bare;
mod noting;
mod raster;

pub use bare::BareSelects;
pub use noting::follow_noting;
pub use raster::{FirstRaster, WrittenRaster};
