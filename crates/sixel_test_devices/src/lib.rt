//! For tests: a device that counts its calls, and long inputs.
#![tactic(auto)]

mod counting_device;
mod inputs;

pub use counting_device::{Calls, CountingDevice};
pub use inputs::filled;
