//! Planes of pixels.
#![tactic(auto)]

mod band_plane;
mod byte_plane;
mod cover;
mod cover_plane;
mod coverage;
mod lanes;
mod plane;
mod stretch;

pub use band_plane::BandPlane;
pub use byte_plane::BytePlane;
pub use cover::Cover;
pub use cover_plane::CoverPlane;
pub use plane::Plane;
pub use stretch::LANES;
