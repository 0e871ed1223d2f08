//! One crate that re-exports three: colours, palettes, pictures, rules, planes of pixels, and PPM files.
#![tactic(auto)]

pub use sixel_model::{
    ALL_RULES, BAND_ROWS, Colour, LEAST_REGISTERS, MOST_REGISTERS, Palette, Parts, Picture,
    PictureFault, PictureReason, Profile, RULE_COUNT, Rule, is_set,
};
pub use sixel_plane::{BandPlane, BytePlane, Plane};
pub use sixel_ppm::{PpmFault, PpmReason, read_ppm, write_ppm, write_ppm_colours};
