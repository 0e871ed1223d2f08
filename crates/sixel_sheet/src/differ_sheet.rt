//! Writes what the named terminals show of a sixel string side by side, as a PPM.

ghost use Rattle.std.specs.Prelude.{◌≡◌, ◌≢◌, Err, IfSome, IsTrue, List, ℕ};
ghost use Rattle.sixel_grammar.specs.Reading.{NoFaultBefore};
ghost use Rattle.sixel_model.specs.declared.colour.Parts.{Parts};
ghost use Rattle.sixel_model.specs.Pictures.{is_side};
ghost use Rattle.sixel_differ.specs.Views.{AreViews, HaveSides};
ghost use Rattle.sixel_report.specs.declared.fault.RunFault.TheVariants.{Read};
ghost use Rattle.sixel_sheet.specs.Outputs.{DifferGives, sheet_output, HasEachSize};
ghost use Rattle.sixel_report.specs.Outputs.{CountsWrites, WroteBy, WroteNothing, failures_by};

use crate::sheet::{are_rgb_views, write_sheet};
use crate::viewed::read_views;
use sixel_differ::Views;
use sixel_io::{PIECE, Sink, Source};
use sixel_model::Colour;
use sixel_report::{RunFault, Status, differ_status};
use std::alloc::Global;

/// Reads the whole input, and writes the sheet of what the named terminals show then. It doesn't flush.
pub fn differ_sheet<S: Source, K: Sink>(
    alloc: Global,
    background: Colour,
    input: &mut S,
    piece: &mut [u8; PIECE],
    output: &mut K,
) -> Result<Status, RunFault>
    ensures wrote { IfSome (S.state input.old).remaining (λ bytes.
        WroteBy (DifferGives sheet_output background bytes) WroteNothing result
        (K.state output.old).taken (K.state output.new).taken) }
    ensures memory { result ≡ Err RunFault.OutOfMemory → IfSome (S.state input.old).remaining HasEachSize }
    ensures reads { (S.state input.new).failures ≡ failures_by Read result (S.state input.old).failures }
    ensures unread { result ≡ Err Read →
        IfSome (S.state input.old).remaining (NoFaultBefore (S.state input.new).remaining) }
    ensures writes { CountsWrites result (K.state output.old).failures (K.state output.new).failures }
{
    let views = read_views(alloc, background, input, piece)?;
    write_views(&views, output)
}

/// Writes the sheet of what the terminals show. Returns the status.
fn write_views<K: Sink>(views: &Views, output: &mut K) -> Result<Status, RunFault>
    requires sides { HaveSides views.now }
    requires small { IsTrue (is_side views.now.width) }
    ensures wrote { (background : Parts) (bytes : List ℕ) → AreViews background bytes views.now →
        WroteBy (DifferGives sheet_output background bytes) WroteNothing result
        (K.state output.old).taken (K.state output.new).taken }
    ensures unread { result ≢ Err Read }
    ensures memory { result ≢ Err RunFault.OutOfMemory }
    ensures writes { CountsWrites result (K.state output.old).failures (K.state output.new).failures }
{
    if !are_rgb_views(views) {
        return Err(RunFault::NotRgb);
    }
    match write_sheet(views, output) {
        Ok(()) => Ok(differ_status(&views.compare())),
        Err(_) => Err(RunFault::Write),
    }
}
