//! How file names are spelled, and lines that contain one.

ghost use Rattle.std.specs.Prelude.{◌≡◌, ◌<◌, ◌≤◌, ◌∷◌, ◌++◌, [], ℕ, IfErr, IfNone, IfSome, List, OnOk, encode_utf8_all, length};
ghost use Rattle.std.specs.Prelude.{true};
ghost use Rattle.json.specs.Print.{escape, escape_byte, escape_letter};
ghost use Rattle.sixel_io.specs.Devices.{Writes};
ghost use Rattle.sixel_io.proofs.SinkLemmas.{Written};
ghost use Rattle.sixel_messages.specs.Json.{spelled};
ghost use Rattle.sixel_messages.specs.declared.names.Spelling.TheVariants.{Quoted};
ghost use Rattle.sixel_printing.specs.Printing.{printed, printed_char};
ghost use Rattle.std.specs.Char.{digit_char};

use arrayvec::ArrayVec;
use sixel_io::{DeviceFault, Sink, put_all};
use sixel_printing::{plain_byte, printed_char};

/// The length of the longest name that a file can have.
const MOST_NAME: usize = 4_095;

/// Room for any line with such a name: each of its bytes is spelled as at most six, and the text around it has at most
/// 1,168.
const ROOM: usize = 25_738;

/// How many bytes a character has at most as it is printed.
const MOST_PRINTED: usize = 4;

/// Room for most lines. An `ArrayVec` with so little is quickly cleared and moved.
const SHORT: usize = 256;

/// Room for most lines of JSON.
const OBJECT: usize = 512;

/// How a name is spelled.
#[derive(Clone, Copy, Debug, PartialEq, Eq, Drop)]
pub enum Spelling {
    /// For people: control characters by number, as `\x0A`.
    Printed,
    /// As between the quotes of a string of JSON.
    Quoted,
}

/// A byte as between the quotes of a string of JSON.
pub(crate) type QuotedByte = ArrayVec<u8, 6>;

/// A hexadecimal digit in small letters.
fn small_digit(number: u8) -> u8
    requires { number < 16 }
    ensures { result ≡ digit_char number }
{
    if number < 10 {
        b'0' + number
    } else {
        b'a' + (number - 10)
    }
}

/// The letter of a byte's short escape in JSON, if it has one.
fn escape_letter(byte: u8) -> Option<u8>
    ensures letter { IfSome result (λ letter. letter ≡ escape_letter byte) }
    ensures some { IfSome result (λ letter. 0 < letter) }
    ensures none { IfNone result (escape_letter byte ≡ 0) }
{
    match byte {
        b'"' | b'\\' => Some(byte),
        0x08 => Some(b'b'),
        0x0c => Some(b'f'),
        b'\n' => Some(b'n'),
        b'\r' => Some(b'r'),
        b'\t' => Some(b't'),
        _ => None,
    }
}

/// A byte between the quotes of a string of JSON.
#[tactic(auto, unfolding(json::specs::Print::escape_byte))]
pub(crate) fn quoted_byte(byte: u8) -> QuotedByte
    ensures { result.items ≡ escape_byte byte }
{
    let mut text = ArrayVec::new();
    if let Some(letter) = escape_letter(byte) {
        text.push(b'\\');
        text.push(letter);
    } else if byte < 0x20 {
        text.push(b'\\');
        text.push(b'u');
        text.push(b'0');
        text.push(b'0');
        text.push(small_digit(byte / 16));
        text.push(small_digit(byte % 16));
    } else {
        text.push(byte);
    }
    text
}

/// Whether a byte is itself between the quotes of a string of JSON.
#[tactic(auto, using(json::proofs::Printed::Strings::escape_byte_plain))]
pub(crate) fn is_plain(byte: u8) -> bool
    ensures { result ≡ true → escape_byte byte ≡ byte ∷ [] }
{
    byte >= 0x20 && byte != 0x7f && byte != b'"' && byte != b'\\'
}

/// Appends the bytes, if there is room.
fn push_all<const N: usize>(line: &mut ArrayVec<u8, N>, text: &[u8]) -> Option<()>
    ensures { IfSome result (λ _. line.new.items ≡ line.old.items ++ text.now) }
{
    line.try_extend_from_slice(text).ok()
}

/// Appends a character of a name as it is printed, if there is room. Nearly all are plain, and copied quickly.
fn push_char<const N: usize>(line: &mut ArrayVec<u8, N>, c: char) -> Option<()>
    ensures { IfSome result (λ _. line.new.items ≡ line.old.items ++ encode_utf8_all (printed_char c)) }
{
    match plain_byte(c) {
        Some(byte) => line.try_push(byte).ok(),
        None => push_all(line, printed_char(c).as_slice()),
    }
}

/// Appends a name as it is printed, if there is room.
fn push_printed<const N: usize>(line: &mut ArrayVec<u8, N>, name: &str) -> Option<()>
    ensures { IfSome result (λ _. line.new.items ≡ line.old.items ++ printed name.now) }
{
    for c in name.chars() {
        push_char(line, c)?;
    }
    Some(())
}

/// Appends a byte of a name as in a string of JSON, if there is room.
fn push_byte<const N: usize>(line: &mut ArrayVec<u8, N>, byte: u8) -> Option<()>
    ensures { IfSome result (λ _. line.new.items ≡ line.old.items ++ escape_byte byte) }
{
    if is_plain(byte) {
        line.try_push(byte).ok()
    } else {
        push_all(line, quoted_byte(byte).as_slice())
    }
}

/// Appends a name as in a string of JSON, if there is room.
fn push_quoted<const N: usize>(line: &mut ArrayVec<u8, N>, name: &[u8]) -> Option<()>
    ensures { IfSome result (λ _. line.new.items ≡ line.old.items ++ escape name.now) }
{
    for byte in name {
        push_byte(line, *byte)?;
    }
    Some(())
}

/// Appends a name as it is spelled, if there is room.
fn push_name<const N: usize>(
    line: &mut ArrayVec<u8, N>,
    spelling: Spelling,
    name: &str,
) -> Option<()>
    ensures { IfSome result (λ _. line.new.items ≡ line.old.items ++ spelled spelling name.now) }
{
    match spelling {
        Spelling::Printed => push_printed(line, name),
        Spelling::Quoted => push_quoted(line, name.as_bytes()),
    }
}

/// A line that contains a name, if there is room for it.
fn joined<const N: usize>(
    spelling: Spelling,
    before: &[u8],
    name: &str,
    after: &[u8],
    rest: &[u8],
) -> Option<ArrayVec<u8, N>>
    ensures { IfSome result
        (λ line. line.items ≡ before.now ++ spelled spelling name.now ++ after.now ++ rest.now) }
{
    let mut line = ArrayVec::new();
    push_all(&mut line, before)?;
    push_name(&mut line, spelling, name)?;
    push_all(&mut line, after)?;
    push_all(&mut line, rest)?;
    Some(line)
}

/// Writes a line that contains a name as it is printed, in one piece, so that the lines of programs that share a pipe
/// don't mix. Only a name that is longer than any file's goes out in several pieces.
pub fn put_named<K: Sink>(
    out: &mut K,
    before: &[u8],
    name: &str,
    after: &[u8],
    rest: &[u8],
) -> Result<(), DeviceFault>
    ensures { Writes result (K.state out.old) (K.state out.new)
        (before.now ++ printed name.now ++ after.now ++ rest.now) }
{
    let short: Option<ArrayVec<u8, SHORT>> = joined(Spelling::Printed, before, name, after, rest);
    match short {
        Some(line) => put_all(out, line.as_slice()),
        None => put_long(out, Spelling::Printed, before, name, after, rest),
    }
}

/// The same with a name as in a string of JSON, without its quotes.
pub(crate) fn put_quoted<K: Sink>(
    out: &mut K,
    before: &[u8],
    name: &str,
    after: &[u8],
    rest: &[u8],
) -> Result<(), DeviceFault>
    ensures { Writes result (K.state out.old) (K.state out.new)
        (before.now ++ spelled Quoted name.now ++ after.now ++ rest.now) }
{
    let short: Option<ArrayVec<u8, OBJECT>> = joined(Spelling::Quoted, before, name, after, rest);
    match short {
        Some(line) => put_all(out, line.as_slice()),
        None => put_long(out, Spelling::Quoted, before, name, after, rest),
    }
}

/// Writes a line that has no room in a short one.
#[inline(never)]
fn put_long<K: Sink>(
    out: &mut K,
    spelling: Spelling,
    before: &[u8],
    name: &str,
    after: &[u8],
    rest: &[u8],
) -> Result<(), DeviceFault>
    ensures { Writes result (K.state out.old) (K.state out.new)
        (before.now ++ spelled spelling name.now ++ after.now ++ rest.now) }
{
    let long: Option<ArrayVec<u8, ROOM>> = joined(spelling, before, name, after, rest);
    match long {
        Some(line) => put_all(out, line.as_slice()),
        None => put_parts(out, spelling, before, name, after, rest),
    }
}

/// Writes the same line in several pieces.
fn put_parts<K: Sink>(
    out: &mut K,
    spelling: Spelling,
    before: &[u8],
    name: &str,
    after: &[u8],
    rest: &[u8],
) -> Result<(), DeviceFault>
    ensures { Writes result (K.state out.old) (K.state out.new)
        (before.now ++ spelled spelling name.now ++ after.now ++ rest.now) }
{
    put_all(out, before)?;
    put_name(out, spelling, name)?;
    put_all(out, after)?;
    put_all(out, rest)
}

/// Writes a name as it is spelled.
fn put_name<K: Sink>(out: &mut K, spelling: Spelling, name: &str) -> Result<(), DeviceFault>
    ensures { Writes result (K.state out.old) (K.state out.new) (spelled spelling name.now) }
{
    match spelling {
        Spelling::Printed => put_printed(out, name),
        Spelling::Quoted => put_escaped(out, name.as_bytes()),
    }
}

/// Writes a name as it is printed, in pieces of up to `ROOM` bytes.
fn put_printed<K: Sink>(out: &mut K, name: &str) -> Result<(), DeviceFault>
    ensures { Writes result (K.state out.old) (K.state out.new) (printed name.now) }
{
    let mut text = ArrayVec::new();
    for c in name.chars() {
        add_char(&mut text, c, out)?;
    }
    put_all(out, text.as_slice())
}

/// Appends a character as it is printed. If there is no room for it, the text goes out first.
fn add_char<K: Sink>(text: &mut ArrayVec<u8, ROOM>, c: char, out: &mut K) -> Result<(), DeviceFault>
    ensures added { OnOk result ((sent : List ℕ) × Written (K.state out.old) (K.state out.new) sent
        × (sent ++ text.new.items ≡ text.old.items ++ encode_utf8_all (printed_char c))) }
    ensures cut { IfErr result (λ _. Writes result (K.state out.old) (K.state out.new) text.old.items) }
{
    let printed = printed_char(c);
    if text.remaining_capacity() < MOST_PRINTED {
        put_all(out, text.as_slice())?;
        *text = ArrayVec::new();
    }
    let _ = text.try_extend_from_slice(printed.as_slice());
    Ok(())
}

/// Writes a name as in a string of JSON, `MOST_NAME` bytes of it at a time.
fn put_escaped<K: Sink>(out: &mut K, name: &[u8]) -> Result<(), DeviceFault>
    ensures { Writes result (K.state out.old) (K.state out.new) (escape name.now) }
{
    let mut rest = name;
    while !rest.is_empty() {
        let (part, more) = rest.split_at(rest.len().min(MOST_NAME));
        put_all(out, escaped_part(part).as_slice())?;
        rest = more;
    }
    Ok(())
}

/// A part of a name as in a string of JSON.
fn escaped_part(part: &[u8]) -> ArrayVec<u8, ROOM>
    requires { length part.now ≤ 4095 }
    ensures { result.items ≡ escape part.now }
{
    let mut text = ArrayVec::new();
    for byte in part {
        let _ = text.try_extend_from_slice(quoted_byte(*byte).as_slice());
    }
    text
}
