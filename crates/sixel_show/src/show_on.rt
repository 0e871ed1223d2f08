//! Shows a sixel picture as a named terminal does.

ghost use Rattle.std.specs.Prelude.{◌≡◌, ◌≢◌, ◌<◌, ◌≤◌, ◌&&◌, [], ℕ, Err, IfErr, IfOk, IfSome, IsTrue, List, None};
ghost use Rattle.std.specs.Prelude.{Option, false, length, take, true};
ghost use Rattle.std.specs.Io.KnownBytes.{Consumes};
ghost use Rattle.sixel_io.specs.Devices.{CountsFailure};
ghost use Rattle.sixel_grammar.specs.declared.command.Event.{Event as AnEvent};
ghost use Rattle.sixel_grammar.specs.declared.command.Placed.{Placed as Place};
ghost use Rattle.sixel_grammar.specs.Document.{Document, IsDocument, events_of};
ghost use Rattle.sixel_grammar.specs.declared.fault.InputFault.TheVariants.{Read as ReadFault};
ghost use Rattle.sixel_grammar.specs.Reading.{Explains, NoFaultBefore, failures_after};
ghost use Rattle.sixel_terminal.specs.Limits.{is_screen_side};
ghost use Rattle.sixel_grammar.specs.FirstPiece.{IsFirst, with_first};
ghost use Rattle.sixel_report.specs.declared.fault.RunFault.TheVariants.{Read};
ghost use Rattle.sixel_report.specs.declared.task.Area.{Area as AnArea};
ghost use Rattle.sixel_show.specs.Boxes.{box_in};
ghost use Rattle.sixel_show.specs.NamedScreens.{HaveNoFault, HasSidesAfter, ShowsIn, ShowsRead};
ghost use Rattle.sixel_report.specs.Outputs.{CountsWrites, HasSidesIn, WrotePicture, failures_by};
ghost use Rattle.sixel_show.specs.Outputs.{ShowOnGives, sides_in};

use crate::box_finder::BoxFinder;
use crate::draw::read_rest;
use crate::on_konsole::{begin_konsole, follow_on_konsole, screen_by};
use crate::screen::write_screen;
use crate::show_box::{follow, sides_of_box};
use sixel_grammar::{InputFault, Reader};
use sixel_io::{DeviceFault, PIECE, Sink, Source};
use sixel_keeping::Keeping;
use sixel_model::Colour;
use sixel_named_terminals::Named;
use sixel_report::{Area, PictureFormat, RunFault, Status};
use sixel_terminal::Screen;
use std::alloc::Global;

/// Reads the whole input, and writes the screen that the named terminal shows then. It doesn't flush.
pub fn show_on<S: Source, K: Sink>(
    alloc: Global,
    named: Named,
    background: Colour,
    area: Area,
    format: PictureFormat,
    input: &mut S,
    piece: &mut [u8; PIECE],
    output: &mut K,
) -> Result<Status, RunFault>
    requires { HasSidesIn area }
    ensures wrote { IfSome (S.state input.old).remaining (λ bytes.
        WrotePicture format (ShowOnGives named background area bytes) result
        (K.state output.old).taken (K.state output.new).taken) }
    ensures memory { result ≡ Err RunFault.OutOfMemory → IfSome (S.state input.old).remaining IsDocument }
    ensures reads { (S.state input.new).failures ≡ failures_by Read result (S.state input.old).failures }
    ensures unread { result ≡ Err Read →
        IfSome (S.state input.old).remaining (NoFaultBefore (S.state input.new).remaining) }
    ensures writes { CountsWrites result (K.state output.old).failures (K.state output.new).failures }
{
    let screen = read_screen(alloc, named, background, area, input, piece)?;
    write_screen(format, &screen, output)?;
    Ok(Status::Done)
}

/// The screen that the named terminal shows after the document.
///
/// If its sides are given, or declared in the first bytes, it is drawn while they are read. Otherwise the sides of the
/// declared box are known at the end only, so the bytes are kept. Without memory for them they are still read, so that a
/// string that is no document gets its own fault.
fn read_screen<S: Source>(
    alloc: Global,
    named: Named,
    background: Colour,
    area: Area,
    input: &mut S,
    piece: &mut [u8; PIECE],
) -> Result<Screen, RunFault>
    requires { HasSidesIn area }
    ensures shown { IfSome (S.state input.old).remaining (λ bytes. ShowsRead named background area bytes result) }
    ensures memory { result ≡ Err RunFault.OutOfMemory → IfSome (S.state input.old).remaining IsDocument }
    ensures reads { (S.state input.new).failures ≡ failures_by Read result (S.state input.old).failures }
    ensures unread { result ≡ Err Read →
        IfSome (S.state input.old).remaining (NoFaultBefore (S.state input.new).remaining) }
    ensures unwritten { result ≢ Err RunFault.Write }
{
    match read_first(area, input, piece) {
        Ok(read) => rest_screen(alloc, named, background, area, input, piece, read),
        Err(_) => Err(RunFault::Read),
    }
}

/// Reads the first bytes of a document. Returns how many they are, 0 only at the end. If the sides of the screen are
/// those of a box that isn't declared in them, it reads once more: the program gives the bytes by which it told a
/// format as a piece of their own.
fn read_first<S: Source>(
    area: Area,
    input: &mut S,
    piece: &mut [u8; PIECE],
) -> Result<usize, DeviceFault>
    ensures first { IfOk result (λ read. IsFirst piece.new read (S.state input.new).remaining) }
    ensures read { IfOk result (λ read.
        Consumes (S.state input.old).remaining (S.state input.new).remaining (take read piece.new)) }
    ensures unread { IfErr result (λ fault.
        IfSome (S.state input.old).remaining (NoFaultBefore (S.state input.new).remaining)) }
    ensures failures { CountsFailure result (S.state input.old).failures (S.state input.new).failures }
{
    let read = input.fill(piece)?;
    if wants_more(area, &piece[..read]) {
        read_behind(input, piece, read)
    } else {
        Ok(read)
    }
}

/// Whether the sides of the screen may be known by more bytes of a document than these.
fn wants_more(area: Area, first: &[u8]) -> bool
    ensures some { result ≡ true → 0 < length first.now }
    ensures room { result ≡ true → length first.now < 65536 }
    ensures stands { result ≡ true → HaveNoFault first.now }
{
    match area {
        Area::Sides { .. } => false,
        Area::Box => !first.is_empty() && first.len() < PIECE && declares_none(first),
    }
}

/// Whether these first bytes of a document have no fault, and declare no box.
fn declares_none(first: &[u8]) -> bool
    ensures { result ≡ true → HaveNoFault first.now }
{
    let mut reader = Reader::new();
    let mut finder = BoxFinder { found: None };
    match follow(&mut reader, &mut finder, first) {
        Ok(()) => finder.found.is_none(),
        Err(_) => false,
    }
}

/// Reads once more, behind the first `read` bytes of the piece, which have no fault. Returns how many bytes it has
/// then.
fn read_behind<S: Source>(
    input: &mut S,
    piece: &mut [u8; PIECE],
    read: usize,
) -> Result<usize, DeviceFault>
    requires some { 0 < read }
    requires room { read < 65536 }
    requires stands { HaveNoFault (take read piece.old) }
    ensures more { IfOk result (λ all. (read ≤ all) × (all ≤ length piece.new)) }
    ensures read { (a : Option (List ℕ)) → Consumes a (S.state input.old).remaining (take read piece.old)
        → IfOk result (λ all. Consumes a (S.state input.new).remaining (take all piece.new)) }
    ensures unread { (a : Option (List ℕ)) → Consumes a (S.state input.old).remaining (take read piece.old)
        → IfErr result (λ fault. IfSome a (NoFaultBefore (S.state input.new).remaining)) }
    ensures failures { CountsFailure result (S.state input.old).failures (S.state input.new).failures }
{
    let more = input.fill(&mut piece[read..])?;
    Ok(read + more)
}

/// The same of a source whose first bytes are the first `read` of `piece`.
fn rest_screen<S: Source>(
    alloc: Global,
    named: Named,
    background: Colour,
    area: Area,
    input: &mut S,
    piece: &mut [u8; PIECE],
    read: usize,
) -> Result<Screen, RunFault>
    requires first { IsFirst piece.old read (S.state input.old).remaining }
    requires sides { HasSidesIn area }
    ensures shown { IfSome (with_first piece.old read (S.state input.old).remaining) (λ bytes.
        ShowsRead named background area bytes result) }
    ensures memory { result ≡ Err RunFault.OutOfMemory →
        IfSome (with_first piece.old read (S.state input.old).remaining) IsDocument }
    ensures reads { (S.state input.new).failures ≡ failures_by Read result (S.state input.old).failures }
    ensures unread { result ≡ Err Read →
        IfSome (with_first piece.old read (S.state input.old).remaining)
        (NoFaultBefore (S.state input.new).remaining) }
    ensures unwritten { result ≢ Err RunFault.Write }
{
    match sides_at_first(area, &piece[..read]) {
        Some((width, height)) if opens_with_nothing(named) => screen_at_once(
            alloc, named, background, width, height, input, piece, read,
        ),
        Some((width, height)) => {
            konsole_screen(alloc, background, width, height, input, piece, read)
        }
        None => screen_in_box(alloc, named, background, input, piece, read),
    }
}

/// The sides of the screen, if they are given, or if these first bytes of the document declare a box whose sides a
/// screen can have.
fn sides_at_first(area: Area, first: &[u8]) -> Option<(u32, u32)>
    requires { HasSidesIn area }
    ensures known { IfSome result (HasSidesAfter area first.now) }
    ensures sides { IfSome result (λ sides. IsTrue (is_screen_side sides.0 && is_screen_side sides.1)) }
    ensures none { result ≡ None → area ≡ AnArea.Box }
{
    match area {
        Area::Sides { width, height } => Some((width, height)),
        Area::Box => box_at_first(first),
    }
}

/// The sides of the box that these first bytes of a document declare, if they do, and if a screen can have them.
fn box_at_first(first: &[u8]) -> Option<(u32, u32)>
    ensures known { IfSome result (HasSidesAfter AnArea.Box first.now) }
    ensures sides { IfSome result (λ sides. IsTrue (is_screen_side sides.0 && is_screen_side sides.1)) }
{
    let mut reader = Reader::new();
    let mut finder = BoxFinder { found: None };
    match follow(&mut reader, &mut finder, first) {
        Ok(()) => sides_of(finder.found),
        Err(_) => None,
    }
}

/// Whether the terminal's model draws nothing before the first event.
fn opens_with_nothing(named: Named) -> bool
    ensures others { result ≡ true → named ≢ Named.Konsole }
    ensures konsole { result ≡ false → named ≡ Named.Konsole }
{
    match named {
        Named::XTerm | Named::MlTerm | Named::Foot => true,
        Named::Konsole => false,
    }
}

/// The same for a screen of this width and height, and a model that draws nothing before the first event.
fn screen_at_once<S: Source>(
    alloc: Global,
    named: Named,
    background: Colour,
    width: u32,
    height: u32,
    input: &mut S,
    piece: &mut [u8; PIECE],
    read: usize,
) -> Result<Screen, RunFault>
    requires first { IsFirst piece.old read (S.state input.old).remaining }
    requires sides { IsTrue (is_screen_side width && is_screen_side height) }
    requires opening { named ≢ Named.Konsole }
    ensures shown { IfSome (with_first piece.old read (S.state input.old).remaining) (λ bytes.
        ShowsRead named background (AnArea.Sides width height) bytes result) }
    ensures memory { result ≡ Err RunFault.OutOfMemory →
        IfSome (with_first piece.old read (S.state input.old).remaining) IsDocument }
    ensures reads { (S.state input.new).failures ≡ failures_by Read result (S.state input.old).failures }
    ensures unread { result ≡ Err Read →
        IfSome (with_first piece.old read (S.state input.old).remaining)
        (NoFaultBefore (S.state input.new).remaining) }
    ensures unwritten { result ≢ Err RunFault.Write }
{
    match sixel_named_terminals::show_at_once(
        alloc, named, background, width, height, input, piece, read,
    ) {
        Ok(Ok(screen)) => Ok(screen),
        Ok(Err(place)) => Err(RunFault::Unmodelled { place }),
        Err(InputFault::OutOfMemory) => {
            read_rest(input, piece, read)?;
            Err(RunFault::OutOfMemory)
        }
        Err(fault) => Err(fault.into()),
    }
}

/// The same for konsole. Its rectangle is known at the end only, so it is measured meanwhile, and laid under the
/// drawing then.
fn konsole_screen<S: Source>(
    alloc: Global,
    background: Colour,
    width: u32,
    height: u32,
    input: &mut S,
    piece: &mut [u8; PIECE],
    read: usize,
) -> Result<Screen, RunFault>
    requires first { IsFirst piece.old read (S.state input.old).remaining }
    requires sides { IsTrue (is_screen_side width && is_screen_side height) }
    ensures shown { IfSome (with_first piece.old read (S.state input.old).remaining) (λ bytes.
        ShowsRead Named.Konsole background (AnArea.Sides width height) bytes result) }
    ensures memory { result ≡ Err RunFault.OutOfMemory →
        IfSome (with_first piece.old read (S.state input.old).remaining) IsDocument }
    ensures reads { (S.state input.new).failures ≡ failures_by Read result (S.state input.old).failures }
    ensures unread { result ≡ Err Read →
        IfSome (with_first piece.old read (S.state input.old).remaining)
        (NoFaultBefore (S.state input.new).remaining) }
    ensures unwritten { result ≢ Err RunFault.Write }
{
    let Ok(mut konsole) = begin_konsole(alloc, background, width, height) else {
        read_rest(input, piece, read)?;
        return Err(RunFault::OutOfMemory);
    };
    let kept = follow_on_konsole(alloc, input, piece, read, &mut konsole)?;
    screen_by(alloc, background, width, height, konsole.listener, kept)
}

/// The same as `read_screen` for a screen with the sides of the declared box.
fn screen_in_box<S: Source>(
    alloc: Global,
    named: Named,
    background: Colour,
    input: &mut S,
    piece: &mut [u8; PIECE],
    read: usize,
) -> Result<Screen, RunFault>
    requires { IsFirst piece.old read (S.state input.old).remaining }
    ensures shown { IfSome (with_first piece.old read (S.state input.old).remaining) (λ bytes.
        ShowsRead named background AnArea.Box bytes result) }
    ensures memory { result ≡ Err RunFault.OutOfMemory →
        IfSome (with_first piece.old read (S.state input.old).remaining) IsDocument }
    ensures reads { (S.state input.new).failures ≡ failures_by Read result (S.state input.old).failures }
    ensures unread { result ≡ Err Read →
        IfSome (with_first piece.old read (S.state input.old).remaining)
        (NoFaultBefore (S.state input.new).remaining) }
    ensures unwritten { result ≢ Err RunFault.Write }
{
    let (kept, declared) = find_box(alloc, input, piece, read)?;
    let Some(bytes) = kept else {
        return Err(RunFault::OutOfMemory);
    };
    shown(alloc, named, background, declared, &bytes)
}

/// Reads the source to its end. Returns the bytes of the document, if there is memory for them, and the box that it
/// declares.
fn find_box<S: Source>(
    alloc: Global,
    input: &mut S,
    piece: &mut [u8; PIECE],
    read: usize,
) -> Result<(Option<Vec<u8>>, Option<(u16, u16)>), InputFault>
    requires { IsFirst piece.old read (S.state input.old).remaining }
    ensures read { IfOk result (λ document. IfSome document.0 (λ kept.
        IfSome (with_first piece.old read (S.state input.old).remaining) (λ told. told ≡ kept.items))) }
    ensures found { IfOk result (λ document. IfSome document.0 (λ kept.
        (placed : List Place) × Document placed kept.items × (document.1 ≡ box_in (events_of placed)))) }
    ensures told { IfOk result (λ document.
        IfSome (with_first piece.old read (S.state input.old).remaining) IsDocument) }
    ensures refused { IfErr result (λ fault.
        IfSome (with_first piece.old read (S.state input.old).remaining) (Explains fault)) }
    ensures memory { result ≢ Err InputFault.OutOfMemory }
    ensures failures { (S.state input.new).failures ≡ failures_after result (S.state input.old).failures }
    ensures unread { result ≡ Err ReadFault →
        IfSome (with_first piece.old read (S.state input.old).remaining)
        (NoFaultBefore (S.state input.new).remaining) }
{
    let mut finder = BoxFinder { found: None };
    let mut keeping = Keeping {
        kept: Some(Vec::new(alloc)),
    };
    sixel_grammar::read_rest(input, piece, read, &mut finder, &mut keeping)?;
    Ok((keeping.kept, finder.found))
}

/// The screen of the named terminal after the document of these bytes. If no screen can have the sides of the declared
/// box, the model is still asked, on a screen of one pixel, so that a string of which it doesn't say all gets that
/// fault.
fn shown(
    alloc: Global,
    named: Named,
    background: Colour,
    declared: Option<(u16, u16)>,
    bytes: &[u8],
) -> Result<Screen, RunFault>
    requires { (placed : List Place) × Document placed bytes.now × (declared ≡ box_in (events_of placed)) }
    ensures { ShowsIn named background AnArea.Box bytes.now result }
{
    let opening = named.opening_of(bytes);
    match sides_of(declared) {
        Some((width, height)) => Ok(sixel_named_terminals::show_on(
            alloc, named, background, width, height, opening, bytes,
        )?),
        None => {
            sixel_named_terminals::show_on(alloc, named, background, 1, 1, opening, bytes)?;
            Err(RunFault::NoBox)
        }
    }
}

/// The sides of the declared box, if a screen can have them.
fn sides_of(declared: Option<(u16, u16)>) -> Option<(u32, u32)>
    ensures value { (events : List AnEvent) → declared ≡ box_in events → result ≡ sides_in AnArea.Box events }
    ensures sides { IfSome result (λ sides. IsTrue (is_screen_side sides.0 && is_screen_side sides.1)) }
{
    match declared {
        Some((width, height)) => sides_of_box(width, height),
        None => None,
    }
}
