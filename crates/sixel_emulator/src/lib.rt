//! What a model of a terminal emulator is, and how it is followed through the events of a string. No terminal is named
//! here.
#![tactic(auto)]

mod course;
mod documents;
mod first_piece;
mod heard_source;
mod hearing;
mod listener;
mod looking;
mod modelled;
mod place;
mod progress;
mod reading;
mod settings;
mod waiting;
pub mod words;

pub use course::Course;
pub use documents::{draw, draw_bytes};
pub use first_piece::follow_rest;
pub use hearing::{Hearing, Hears, Omitted, RasterHeard};
pub use listener::Listener;
pub use looking::{Looking, omitted_in};
pub use modelled::{Modelled, UnsaidControls};
pub use place::Place;
pub use reading::{Reading, Reads};
pub use settings::plain_choices;
pub use waiting::Waiting;
