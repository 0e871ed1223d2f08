//! How characters are printed.

ghost use Rattle.std.specs.Prelude.{◌≡◌, ◌<◌, ◌∷◌, ◌++◌, [], IfOk, IfSome, OnOk, encode_utf8_all};
ghost use Rattle.std.specs.String.{string_bytes};
ghost use Rattle.sixel_printing.specs.Printing.{hex_digit, printed, printed_char, printed_in_lines, printed_lines};

use arrayvec::ArrayVec;
use std::alloc::{AllocError, Global};

/// A character as it is printed, in UTF-8.
pub type PrintedChar = ArrayVec<u8, 4>;

fn hex_digit(number: u8) -> u8
    requires { number < 16 }
    ensures { result ≡ hex_digit number }
{
    if number < 10 {
        b'0' + number
    } else {
        b'A' + (number - 10)
    }
}

/// How a character is printed. A control character is escaped, as `\x0A`, so that no text from outside can end a line or
/// send a command to a terminal. Those from U+0080 to U+009F are commands, too: U+009B is the CSI of 8-bit terminals.
pub fn printed_char(c: char) -> PrintedChar
    ensures { result.items ≡ encode_utf8_all (printed_char c) }
{
    let mut text = ArrayVec::new();
    if c.is_control() {
        let number = c as u8;
        text.push(b'\\');
        text.push(b'x');
        text.push(hex_digit(number / 16));
        text.push(hex_digit(number % 16));
    } else {
        let mut room = [0; 4];
        let _ = text.try_extend_from_slice(c.encode_utf8(&mut room).as_bytes());
    }
    text
}

/// The byte of a character that is printed as itself and in one byte.
#[inline]
pub fn plain_byte(c: char) -> Option<u8>
    ensures { IfSome result (λ byte. encode_utf8_all (printed_char c) ≡ byte ∷ []) }
{
    if c >= ' ' && c <= '~' {
        Some(c as u8)
    } else {
        None
    }
}

/// Appends a character as it is printed.
fn push_printed(line: &mut String, c: char) -> Result<(), AllocError>
    ensures { OnOk result (string_bytes line.new ≡ string_bytes line.old ++ encode_utf8_all (printed_char c)) }
{
    if !c.is_control() {
        return line.push(c);
    }
    let number = c as u8;
    line.push('\\')?;
    line.push('x')?;
    line.push(char::from(hex_digit(number / 16)))?;
    line.push(char::from(hex_digit(number % 16)))
}

/// How a text is printed on one line. `AllocError`: an allocation failed.
pub fn printed(alloc: Global, text: &str) -> Result<String, AllocError>
    ensures { IfOk result (λ line. string_bytes line ≡ printed text.now) }
{
    let mut line = String::new(alloc);
    for c in text.chars() {
        push_printed(&mut line, c)?;
    }
    Ok(line)
}

/// Appends a character as it is printed, or a line feed.
fn push_in_lines(lines: &mut String, c: char) -> Result<(), AllocError>
    ensures { OnOk result (string_bytes lines.new ≡ string_bytes lines.old ++ encode_utf8_all (printed_in_lines c)) }
{
    if c == '\n' {
        lines.push(c)
    } else {
        push_printed(lines, c)
    }
}

/// How a text of several lines is printed. `AllocError`: an allocation failed.
pub fn printed_lines(alloc: Global, text: &str) -> Result<String, AllocError>
    ensures { IfOk result (λ lines. string_bytes lines ≡ printed_lines text.now) }
{
    let mut lines = String::new(alloc);
    for c in text.chars() {
        push_in_lines(&mut lines, c)?;
    }
    Ok(lines)
}
