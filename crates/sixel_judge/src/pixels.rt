//! Drawing what breaks no rule, and the picture that is left.

ghost use Rattle.std.specs.Prelude.{◌≡◌, ◌<◌, ◌++◌, ◌∷◌, [], ℕ, List, Some, None, IsSome, OnOk, OnErr, IfOk};
ghost use Rattle.std.specs.Option.{option_map};
ghost use Rattle.sixel_grammar.specs.declared.command.Event.{Event as EventValue};
ghost use Rattle.sixel_grammar.specs.Spelling.{IsSpellable};
ghost use Rattle.sixel_model.specs.Events.{raster_of};
ghost use Rattle.sixel_model.specs.Grids.{IsFull};
ghost use Rattle.sixel_model.specs.Profiles.{count_of};
ghost use Rattle.sixel_model.specs.Rules.{BreaksNone, colour_of, last_rule, palette_left, picture_left};
ghost use Rattle.sixel_plane.specs.Covers.{kept_by};
ghost use Rattle.sixel_judge.specs.Judging.{BreaksNoRule, IsDrawn, IsGridAfter, IsUndrawn, StandsUnbroken};
ghost use Rattle.sixel_judge.specs.Notes.{IsNotesAfter};

use crate::colours::colour_in;
use crate::events::{bits_of, columns_of, is_painting, sides_of};
use crate::notes::Notes;
use sixel_grammar::Event;
use sixel_model::{Colour, Palette, Picture, Profile};
use sixel_plane::{Cover, Plane};
use std::alloc::{AllocError, Global};

/// Paints the pixels of a data command.
#[inline(always)]
fn paint<P: Cover>(notes: &Notes, plane: &mut P, event: &Event)
    requires { (registers : ℕ) × (before : List EventValue)
        × StandsUnbroken registers (kept_by P.keeps) notes.now (Some (P.grid plane.old)) before
        × BreaksNoRule registers before event.now × IsSpellable event.now }
    ensures { (registers : ℕ) (before : List EventValue)
        → StandsUnbroken registers (kept_by P.keeps) notes.now (Some (P.grid plane.old)) before
        → BreaksNoRule registers before event.now
        → IsDrawn (kept_by P.keeps) (P.grid plane.new) (before ++ event.now ∷ []) }
{
    if !is_painting(event) {
        return;
    }
    match notes.known() {
        Some(register) => plane.paint_run(
            notes.column as u32,
            notes.band as u32,
            columns_of(event) as u32,
            bits_of(event),
            register as u8,
        ),
        None => {}
    }
}

/// A blank plane of the declared size for raster attributes; `None` for any other event.
fn first_plane<P: Cover>(alloc: Global, event: &Event) -> Result<Option<P>, AllocError>
    requires { (registers : ℕ) × (before : List EventValue) × BreaksNoRule registers before event.now }
    ensures ok { IfOk result (λ plane. (registers : ℕ) (before : List EventValue) → IsUndrawn before
        → BreaksNoRule registers before event.now
        → IsGridAfter (kept_by P.keeps) (option_map P.grid plane) (before ++ event.now ∷ [])) }
    ensures declares { OnErr result (IsSome (raster_of event.now)) }
{
    match sides_of(event) {
        Some((width, height)) => Ok(Some(P::blank(alloc, width, height)?)),
        None => Ok(None),
    }
}

/// Makes the plane at the first raster attributes, and paints on it after that.
#[inline(always)]
pub(crate) fn draw<P: Cover>(
    alloc: Global,
    notes: &Notes,
    plane: &mut Option<P>,
    event: &Event,
) -> Result<(), AllocError>
    requires { (registers : ℕ) × (before : List EventValue)
        × StandsUnbroken registers (kept_by P.keeps) notes.now (option_map P.grid plane.old) before
        × BreaksNoRule registers before event.now × IsSpellable event.now }
    ensures ok { OnOk result ((registers : ℕ) (before : List EventValue)
        → StandsUnbroken registers (kept_by P.keeps) notes.now (option_map P.grid plane.old) before
        → BreaksNoRule registers before event.now
        → IsGridAfter (kept_by P.keeps) (option_map P.grid plane.new) (before ++ event.now ∷ [])) }
    ensures err { OnErr result (plane.new ≡ plane.old) }
    ensures first { OnErr result (plane.old ≡ None) }
    ensures declares { OnErr result (IsSome (raster_of event.now)) }
{
    match plane {
        Some(plane) => {
            paint(notes, plane, event);
            Ok(())
        }
        None => {
            *plane = first_plane(alloc, event)?;
            Ok(())
        }
    }
}

/// The colour that the last definition of the register gives. The register must be the number of a byte.
fn left_colour(notes: &Notes, register: u16) -> Option<Colour>
    requires { register < 256 }
    ensures { (registers : ℕ) (events : List EventValue) → IsNotesAfter notes.now events
        → BreaksNone registers last_rule events → result ≡ colour_of events register }
{
    match notes.definition(register) {
        Some(definition) => {
            colour_in(definition.system, definition.x, definition.y, definition.z)
        }
        None => None,
    }
}

/// The palette that the events leave: for each defined register its last colour.
fn left_palette(profile: Profile, notes: &Notes) -> Palette
    ensures { (events : List EventValue) → IsNotesAfter notes.now events
        → BreaksNone (count_of profile) last_rule events → result ≡ palette_left (count_of profile) events }
{
    let mut palette = Palette::new(profile);
    for register in 0..profile.count() {
        if let Some(colour) = left_colour(notes, register) {
            palette.set(register as u8, colour);
        }
    }
    palette
}

/// The picture of a plane without a blank pixel.
pub(crate) fn picture_of<P: Plane>(profile: Profile, notes: &Notes, plane: P) -> Picture
    requires full { IsFull (P.grid plane) }
    requires stands { (events : List EventValue)
        × StandsUnbroken (count_of profile) (kept_by P.keeps) notes.now (Some (P.grid plane)) events }
    ensures { (events : List EventValue)
        → StandsUnbroken (count_of profile) (kept_by P.keeps) notes.now (Some (P.grid plane)) events
        → result ≡ picture_left (count_of profile) events }
{
    let width = plane.width();
    let height = plane.height();
    let palette = left_palette(profile, notes);
    Picture::of_parts(width, height, palette, plane.into_registers())
}
