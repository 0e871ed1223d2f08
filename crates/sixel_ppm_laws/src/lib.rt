//! Laws of pictures as PPM files: each pixel of a picture has a colour, and reading agrees with the grammar of picture
//! files.
#![tactic(auto)]

pub mod laws;
