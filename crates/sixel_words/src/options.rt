//! The values of options, over clap's matches.

ghost use Rattle.std.specs.Prelude.{◌≡◌, ◌≤◌, ◌↔◌, ℕ, IfSome, IsNone, IsTrue};
ghost use Rattle.clap.specs.Walk.{rows_of};
ghost use Rattle.clap.specs.Matches.{found_of};
ghost use Rattle.sixel_terminal.specs.Limits.{most_screen_side};
ghost use Rattle.sixel_model.specs.declared.colour.Parts.{Parts};
ghost use Rattle.sixel_words.specs.Words.{HasColour, HasSide, format_of, is_given, is_named, profile_of};

use crate::colours::colour_of;
use clap::ArgMatches;
use clap::parser::ValueSource;
use sixel_model::{Colour, Profile};
use sixel_report::{MOST_SCREEN_SIDE, PictureFormat};

/// The profile that the options select.
pub(crate) fn profile_of(matches: &ArgMatches<'_>) -> Profile
    ensures { profile_of (rows_of (found_of matches.now)) ≡ result }
{
    if flag_of(matches, "wide") {
        Profile::Registers256
    } else {
        Profile::Registers16
    }
}

/// The format of a picture that the options select.
pub(crate) fn format_of(matches: &ArgMatches<'_>) -> PictureFormat
    ensures { format_of (rows_of (found_of matches.now)) ≡ result }
{
    if flag_of(matches, "png") {
        PictureFormat::Png
    } else {
        PictureFormat::Ppm
    }
}

/// Whether the flag was given.
pub(crate) fn flag_of(matches: &ArgMatches<'_>, name: &str) -> bool
    ensures { is_given name.now (rows_of (found_of matches.now)) ≡ result }
{
    match matches.get_str(name) {
        Some(text) => text == "true",
        None => false,
    }
}

/// Whether the arguments give the option; a default doesn't count.
pub(crate) fn is_named(matches: &ArgMatches<'_>, name: &str) -> bool
    ensures { is_named name.now (rows_of (found_of matches.now)) ≡ result }
{
    match matches.value_source(name) {
        Some(ValueSource::CommandLine) => true,
        Some(ValueSource::DefaultValue) => false,
        None => false,
    }
}

/// The number of an option. clap accepts none out of range, but its contract doesn't say so of a subcommand's options.
pub(crate) fn side_of(matches: &ArgMatches<'_>, name: &str) -> Option<u32>
    ensures some { IfSome result (HasSide name.now (rows_of (found_of matches.now))) }
    ensures none { IsNone result → (n : ℕ) → HasSide name.now (rows_of (found_of matches.now)) n → ⊥ }
{
    match matches.get_one::<u32>(name) {
        Some(number) if is_side(number) => Some(number),
        _ => None,
    }
}

/// The colour of an option.
pub(crate) fn colour_in(matches: &ArgMatches<'_>, name: &str) -> Option<Colour>
    ensures some { IfSome result (HasColour name.now (rows_of (found_of matches.now))) }
    ensures none { IsNone result → (colour : Parts) →
        HasColour name.now (rows_of (found_of matches.now)) colour → ⊥ }
{
    match matches.get_str(name) {
        Some(text) => colour_of(text),
        None => None,
    }
}

fn is_side(number: u32) -> bool
    ensures { IsTrue result ↔ (1 ≤ number) × (number ≤ most_screen_side) }
{
    number >= 1 && number <= MOST_SCREEN_SIDE
}
