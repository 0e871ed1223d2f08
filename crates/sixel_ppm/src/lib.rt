//! Pictures as PPM files (Netpbm, ppm(5)).
#![tactic(auto)]

mod ppm;

pub use ppm::{
    Numbering, PpmFault, PpmReason, ToRgbx, read_ppm, write_ppm, write_ppm_colours,
    write_ppm_pixels,
};
