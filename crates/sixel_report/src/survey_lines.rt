//! The lines of a survey.

ghost use Rattle.std.specs.Prelude.{◌≡◌};
ghost use Rattle.sixel_report.specs.Texts.{asked_entry_line, entry_line, size_line};

use crate::lines::{Line, push_all, push_number, push_pixel, rule_name};
use arrayvec::ArrayVec;
use sixel_emulator_rules::AskedEntry;
use sixel_survey::Entry;

/// The line of an entry, at most 96 bytes: the rule, how often it counts, the offset where it counts first, and the
/// column and the row of its pixel if the rule names one.
pub fn entry_line(entry: &Entry) -> Line
    ensures { result.items ≡ entry_line entry.now }
{
    let mut line = ArrayVec::new();
    push_all(&mut line, rule_name(entry.rule).as_bytes());
    push_number(&mut line, entry.count);
    push_number(&mut line, entry.place);
    push_pixel(&mut line, entry.rule, entry.pixel);
    line.push(b'\n');
    line
}

/// The line of an entry of a rule that a named terminal asks for: the rule, how often it counts, and the offset where it
/// counts first.
pub fn asked_entry_line(asked: &AskedEntry) -> Line
    ensures { result.items ≡ asked_entry_line asked.now }
{
    let mut line = ArrayVec::new();
    push_all(&mut line, asked.rule.name().as_bytes());
    push_number(&mut line, asked.count);
    push_number(&mut line, asked.place);
    line.push(b'\n');
    line
}

/// The line of a portable picture: its width and its height in pixels.
pub fn size_line(width: u32, height: u32) -> Line
    ensures { result.items ≡ size_line width height }
{
    let mut line = ArrayVec::new();
    push_all(&mut line, b"portable");
    push_number(&mut line, width as u64);
    push_number(&mut line, height as u64);
    line.push(b'\n');
    line
}
