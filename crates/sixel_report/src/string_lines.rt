//! The line of a string of a stream.

ghost use Rattle.std.specs.Prelude.{◌≡◌, ◌+◌, ◌≤◌, ◌++◌, length};
ghost use Rattle.arrayvec.specs.ArrayVec.{array_vec_len};
ghost use Rattle.sixel_report.specs.Texts.{answer_line, refusal_line, string_line};

use crate::lines::{Line, finding_line, push_all as push_part, push_number, reason_name};
use crate::survey_lines::size_line;
use arrayvec::ArrayVec;
use itoa::Buffer;
use sixel_grammar::Fault;
use sixel_scan::{Answer, Scanned};

/// The line of a string, with its line feed: an offset, a space, and a line of at most 96 bytes.
pub type StringLine = ArrayVec<u8, 117>;

/// The line of a string: its offset, and then `portable` and its size, or `broken`, the rule, its offset and its pixel
/// if it has one, or `refused`, the reason and its offset.
pub fn string_line(scanned: &Scanned) -> StringLine
    ensures { result.items ≡ string_line scanned.now }
{
    let answer = answer_line(&scanned.answer);
    let mut line = ArrayVec::new();
    let mut buffer = Buffer::new();
    push_all(&mut line, buffer.format(scanned.place).as_bytes());
    line.push(b' ');
    push_all(&mut line, answer.as_slice());
    line
}

/// The line of an answer.
fn answer_line(answer: &Answer) -> Line
    ensures { result.items ≡ answer_line answer.now }
{
    match answer {
        Answer::Portable { width, height } => size_line(*width, *height),
        Answer::Broken(finding) => finding_line(finding),
        Answer::Refused(fault) => refusal_line(fault),
    }
}

/// The line of a string that is no document: at most 44 bytes.
fn refusal_line(fault: &Fault) -> Line
    ensures { result.items ≡ refusal_line fault.now }
{
    let mut line = ArrayVec::new();
    push_part(&mut line, b"refused ");
    push_part(&mut line, reason_name(fault.reason).as_bytes());
    push_number(&mut line, fault.place);
    line.push(b'\n');
    line
}

fn push_all(line: &mut StringLine, text: &[u8])
    requires { array_vec_len line.old + length text.now ≤ 117 }
    ensures items { line.new.items ≡ line.old.items ++ text.now }
    ensures len { array_vec_len line.new ≡ array_vec_len line.old + length text.now }
{
    let _ = line.try_extend_from_slice(text);
}
