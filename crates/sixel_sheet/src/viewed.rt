//! Reads a sixel string, and finds what each named terminal shows of it.

ghost use Rattle.std.specs.Prelude.{◌≡◌, ◌≢◌, Err, IfErr, IfOk, IfSome, IsTrue};
ghost use Rattle.sixel_model.specs.Pictures.{is_side};
ghost use Rattle.sixel_grammar.specs.Reading.{NoFaultBefore};
ghost use Rattle.sixel_io.specs.Devices.{ReadsToEnd};
ghost use Rattle.sixel_differ.specs.declared.view.Views.{Views as SomeViews};
ghost use Rattle.sixel_differ.specs.Views.{AreViews, HaveSides};
ghost use Rattle.sixel_report.specs.declared.fault.RunFault.TheVariants.{Read, Write};
ghost use Rattle.sixel_sheet.specs.Outputs.{IsRefusalOf};
ghost use Rattle.sixel_report.specs.Outputs.{failures_by};

use crate::measured::read_document;
use sixel_differ::{Views, views_measured};
use sixel_io::{PIECE, Source};
use sixel_mend::size_of;
use sixel_model::Colour;
use sixel_report::RunFault;
use std::alloc::Global;

/// Reads the whole input, and returns what each named terminal shows of it.
///
/// The size of the screens is known at the end only, so the bytes are kept, and measured while they come. Without memory
/// to keep the bytes they are still measured, so that a string whose size no picture may have, or one that is no
/// document, gets its own fault.
pub fn read_views<S: Source>(
    alloc: Global,
    background: Colour,
    input: &mut S,
    piece: &mut [u8; PIECE],
) -> Result<Views, RunFault>
    ensures views { IfOk result (λ (views : SomeViews). IfSome (S.state input.old).remaining (λ bytes.
        AreViews background bytes views)) }
    ensures sides { IfOk result HaveSides }
    ensures small { IfOk result (λ (views : SomeViews). IsTrue (is_side views.width)) }
    ensures refused { IfErr result (λ fault. IfSome (S.state input.old).remaining (λ bytes. IsRefusalOf bytes fault)) }
    ensures unwritten { result ≢ Err Write }
    ensures left { ReadsToEnd result (S.state input.old).remaining (S.state input.new).remaining }
    ensures reads { (S.state input.new).failures ≡ failures_by Read result (S.state input.old).failures }
    ensures unread { result ≡ Err Read →
        IfSome (S.state input.old).remaining (NoFaultBefore (S.state input.new).remaining) }
{
    let (kept, extent) = read_document(alloc, input, piece)?;
    let Some(bytes) = kept else {
        size_of(&extent)?;
        return Err(RunFault::OutOfMemory);
    };
    Ok(views_measured(alloc, background, &extent, &bytes)?)
}
