//! Reads a document that is measured before its picture is made.

ghost use Rattle.std.specs.Prelude.{◌≡◌, ◌≢◌, Err, IfErr, IfOk, IfSome};
ghost use Rattle.sixel_grammar.specs.declared.fault.InputFault.TheVariants.{Read as ReadFault};
ghost use Rattle.sixel_grammar.specs.Reading.{Explains, NoFaultBefore, failures_after};
ghost use Rattle.sixel_io.specs.Devices.{ReadsToEnd};
ghost use Rattle.sixel_mend.specs.Measuring.{HasMeasured};

use sixel_grammar::{InputFault, read_source};
use sixel_io::{PIECE, Source};
use sixel_keeping::Keeping;
use sixel_mend::Extent;
use std::alloc::Global;

/// Reads the source to its end. Returns the bytes of the document, if there is memory for them, and its extent. It
/// reads no piece after an invalid byte.
pub fn read_document<S: Source>(
    alloc: Global,
    input: &mut S,
    piece: &mut [u8; PIECE],
) -> Result<(Option<Vec<u8>>, Extent), InputFault>
    ensures read { IfOk result (λ document. IfSome document.0 (λ kept.
        IfSome (S.state input.old).remaining (λ told. told ≡ kept.items))) }
    ensures measured { IfOk result (λ document. IfSome document.0 (λ kept. HasMeasured document.1 kept.items)) }
    ensures told { IfOk result (λ document. IfSome (S.state input.old).remaining (HasMeasured document.1)) }
    ensures refused { IfErr result (λ fault. IfSome (S.state input.old).remaining (Explains fault)) }
    ensures left { ReadsToEnd result (S.state input.old).remaining (S.state input.new).remaining }
    ensures memory { result ≢ Err InputFault.OutOfMemory }
    ensures failures { (S.state input.new).failures ≡ failures_after result (S.state input.old).failures }
    ensures unread { result ≡ Err ReadFault →
        IfSome (S.state input.old).remaining (NoFaultBefore (S.state input.new).remaining) }
{
    let mut extent = Extent::new();
    let mut keeping = Keeping {
        kept: Some(Vec::new(alloc)),
    };
    read_source(input, piece, &mut extent, &mut keeping)?;
    Ok((keeping.kept, extent))
}
