//! The lines that the program writes.

ghost use Rattle.std.specs.Prelude.{◌≡◌, ◌+◌, ◌*◌, ◌≤◌, ◌++◌, ◌∷◌, [], codes, length, decimal};
ghost use Rattle.arrayvec.specs.ArrayVec.{array_vec_len};
ghost use Rattle.sixel_io.specs.Devices.{Writes};
ghost use Rattle.sixel_report.specs.Texts.{event_line, event_parts, fault_line, finding_line, kind_name, numbers};
ghost use Rattle.sixel_report.specs.Texts.{asked_line, named_rule_name, pixel_parts, outcome_line, ppm_reason_name};
ghost use Rattle.sixel_report.specs.Texts.{reason_name, rule_name, spaced};

use crate::fault::RunFault;
use crate::survey_lines::size_line;
use arrayvec::ArrayVec;
use itoa::Buffer;
use sixel_check::{Finding, Outcome, Rule};
use sixel_emulator_check::NamedRule;
use sixel_emulator_rules::AskedFinding;
use sixel_grammar::{Command, Event, Placed, Reason};
use sixel_io::{DeviceFault, Sink, put_all};
use sixel_ppm::PpmReason;

/// A line, with its line feed: of an event at most 58 bytes, of a fault at most 55, of a verdict at most 82, of a
/// survey's entry at most 94.
pub type Line = ArrayVec<u8, 96>;

pub(crate) fn push_all(line: &mut Line, text: &[u8])
    requires { array_vec_len line.old + length text.now ≤ 96 }
    ensures items { line.new.items ≡ line.old.items ++ text.now }
    ensures len { array_vec_len line.new ≡ array_vec_len line.old + length text.now }
{
    let _ = line.try_extend_from_slice(text);
}

/// A number after a space: at most 20 digits.
pub(crate) fn push_number(line: &mut Line, number: u64)
    requires { array_vec_len line.old + 21 ≤ 96 }
    ensures items { line.new.items ≡ line.old.items ++ 32 ∷ decimal number }
    ensures len { array_vec_len line.new ≤ array_vec_len line.old + 21 }
{
    let mut buffer = Buffer::new();
    line.push(b' ');
    push_all(line, buffer.format(number).as_bytes());
}

/// A 16-bit number after a space: at most 5 digits.
fn push_small(line: &mut Line, number: u16)
    requires { array_vec_len line.old + 6 ≤ 96 }
    ensures items { line.new.items ≡ line.old.items ++ 32 ∷ decimal number }
    ensures len { array_vec_len line.new ≤ array_vec_len line.old + 6 }
{
    let mut buffer = Buffer::new();
    line.push(b' ');
    push_all(line, buffer.format(number).as_bytes());
}

/// 16-bit numbers, each after a space.
fn push_numbers(line: &mut Line, given: &[u16])
    requires { array_vec_len line.old + 6 * length given.now ≤ 96 }
    ensures items { line.new.items ≡ line.old.items ++ spaced (numbers given.now) }
    ensures len { array_vec_len line.new ≤ array_vec_len line.old + 6 * length given.now }
{
    for number in given {
        push_small(line, *number);
    }
}

/// A name that begins with a space, and 16-bit numbers.
fn push_part(line: &mut Line, name: &[u8], given: &[u16])
    requires { array_vec_len line.old + length name.now + 6 * length given.now ≤ 96 }
    ensures items { line.new.items ≡ line.old.items ++ (name.now ++ spaced (numbers given.now)) }
    ensures len { array_vec_len line.new ≤ array_vec_len line.old + length name.now + 6 * length given.now }
{
    push_all(line, name);
    push_numbers(line, given);
}

fn push_kind(line: &mut Line, eight: bool)
    requires { array_vec_len line.old + 5 ≤ 96 }
    ensures items { line.new.items ≡ line.old.items ++ 32 ∷ kind_name eight }
    ensures len { array_vec_len line.new ≡ array_vec_len line.old + 5 }
{
    push_all(line, if eight { b" 8bit" } else { b" 7bit" });
}

fn push_command(line: &mut Line, command: &Command)
    requires { array_vec_len line.old ≤ 20 }
    ensures items { line.new.items ≡ line.old.items ++ spaced (event_parts (Event.Step command.now)) }
    ensures len { array_vec_len line.new ≤ 60 }
{
    match command {
        Command::Sixel(bits) => push_part(line, b" sixel", &[u16::from(*bits)]),
        Command::Repeat { count, bits } => {
            push_part(line, b" repeat", &[*count, u16::from(*bits)])
        }
        Command::Raster {
            pan,
            pad,
            width,
            height,
        } => push_part(line, b" raster", &[*pan, *pad, *width, *height]),
        Command::Select(register) => push_part(line, b" select", &[*register]),
        Command::Define {
            register,
            system,
            x,
            y,
            z,
        } => push_part(line, b" define", &[*register, *system, *x, *y, *z]),
        Command::CarriageReturn => push_all(line, b" return"),
        Command::NextLine => push_all(line, b" newline"),
    }
}

/// The line of an event.
pub fn event_line(placed: &Placed) -> Line
    ensures { result.items ≡ event_line placed.now }
{
    let mut line = ArrayVec::new();
    let mut buffer = Buffer::new();
    push_all(&mut line, buffer.format(placed.place).as_bytes());
    match &placed.event {
        Event::Start { eight, parameters } => {
            push_all(&mut line, b" start");
            push_kind(&mut line, *eight);
            push_numbers(&mut line, parameters.as_slice());
        }
        Event::Step(command) => push_command(&mut line, command),
        Event::Finish { eight } => {
            push_all(&mut line, b" end");
            push_kind(&mut line, *eight);
        }
    }
    line.push(b'\n');
    line
}

/// The name of a reason, as lines have it.
pub fn reason_name(reason: Reason) -> &'static str
    ensures text { result.now ≡ reason_name reason }
    ensures short { length result.now ≤ 14 }
{
    match reason {
        Reason::NotSixel => "NotSixel",
        Reason::BadByte => "BadByte",
        Reason::NumberTooLarge => "NumberTooLarge",
        Reason::FieldCount => "FieldCount",
        Reason::BadRepeat => "BadRepeat",
        Reason::BadTerminator => "BadTerminator",
        Reason::Truncated => "Truncated",
        Reason::TooLong => "TooLong",
        Reason::Trailing => "Trailing",
    }
}

/// The name of a reason for no PPM, as lines have it.
pub fn ppm_reason_name(reason: PpmReason) -> &'static str
    ensures text { result.now ≡ ppm_reason_name reason }
    ensures short { length result.now ≤ 14 }
{
    match reason {
        PpmReason::Header => "Header",
        PpmReason::Size => "Size",
        PpmReason::Maxval => "Maxval",
        PpmReason::Sample => "Sample",
        PpmReason::Short => "Short",
        PpmReason::Trailing => "Trailing",
        PpmReason::TooManyColours => "TooManyColours",
    }
}

/// A reason, and the offset of the fault: at most 38 bytes.
fn push_reason(line: &mut Line, reason: &str, place: u64)
    requires { array_vec_len line.old + length reason.now ≤ 72 }
    ensures items { line.new.items ≡ line.old.items ++ (reason.now ++ spaced (codes "at" ∷ decimal place ∷ [])) }
    ensures len { array_vec_len line.new ≤ array_vec_len line.old + length reason.now + 24 }
{
    push_all(line, reason.as_bytes());
    push_all(line, b" at");
    push_number(line, place);
}

/// A name of at most 5 bytes, and the sides of a picture.
fn push_size(line: &mut Line, name: &[u8], width: u32, height: u32)
    requires { array_vec_len line.old + length name.now ≤ 12 }
    ensures items { line.new.items ≡ line.old.items ++ (name.now ++ spaced (decimal width ∷ decimal height ∷ [])) }
    ensures len { array_vec_len line.new ≤ 54 }
{
    push_all(line, name);
    push_number(line, u64::from(width));
    push_number(line, u64::from(height));
}

/// The line of a fault.
pub fn fault_line(fault: &RunFault) -> Line
    ensures { result.items ≡ fault_line fault.now }
{
    let mut line = ArrayVec::new();
    push_all(&mut line, b"sixel: ");
    match fault {
        RunFault::Grammar(fault) => push_reason(&mut line, reason_name(fault.reason), fault.place),
        RunFault::Ppm { reason, place } => push_reason(&mut line, ppm_reason_name(*reason), *place),
        RunFault::NotRgb => push_all(&mut line, b"NotRgb"),
        RunFault::NoBox => push_all(&mut line, b"NoBox"),
        RunFault::Unmodelled { place } => push_reason(&mut line, "Unmodelled", *place),
        RunFault::NoString => push_all(&mut line, b"NoString"),
        RunFault::Large { width, height } => push_size(&mut line, b"Large", *width, *height),
        RunFault::Hue => push_all(&mut line, b"Hue"),
        RunFault::Empty => push_all(&mut line, b"Empty"),
        RunFault::TooLarge => push_all(&mut line, b"TooLarge"),
        RunFault::TooManyColours => push_all(&mut line, b"TooManyColours"),
        RunFault::OutOfMemory => push_all(&mut line, b"out of memory"),
        RunFault::Read => push_all(&mut line, b"read failed"),
        RunFault::Write => push_all(&mut line, b"write failed"),
    }
    line.push(b'\n');
    line
}

/// Writes the line of a fault, or on an `Err` a prefix of it. It doesn't flush.
pub fn write_fault<K: Sink>(fault: &RunFault, out: &mut K) -> Result<(), DeviceFault>
    ensures { Writes result (K.state out.old) (K.state out.new) (fault_line fault.now) }
{
    let line = fault_line(fault);
    put_all(out, line.as_slice())
}

/// The name of a rule, as lines have it.
pub fn rule_name(rule: Rule) -> &'static str
    ensures text { result.now ≡ rule_name rule }
    ensures short { length result.now ≤ 11 }
{
    match rule {
        Rule::RasterFirst => "RasterFirst",
        Rule::RasterTwice => "RasterTwice",
        Rule::Ratio => "Ratio",
        Rule::BoxSize => "BoxSize",
        Rule::Register => "Register",
        Rule::ColourValue => "ColourValue",
        Rule::RepeatZero => "RepeatZero",
        Rule::Unselected => "Unselected",
        Rule::Undefined => "Undefined",
        Rule::Redefined => "Redefined",
        Rule::Outside => "Outside",
        Rule::Uncovered => "Uncovered",
        Rule::EightBit => "EightBit",
    }
}

/// The name of a rule of portable pictures, or of one that named terminals ask for.
pub fn named_rule_name(rule: NamedRule) -> &'static str
    ensures text { result.now ≡ named_rule_name rule }
    ensures short { length result.now ≤ 11 }
{
    match rule {
        NamedRule::Portable(rule) => rule_name(rule),
        NamedRule::Asked(rule) => rule.name(),
    }
}

/// The column and the row of a pixel, if the rule names one.
pub(crate) fn push_pixel(line: &mut Line, rule: Rule, pixel: Option<(u64, u64)>)
    requires { array_vec_len line.old ≤ 53 }
    ensures items { line.new.items ≡ line.old.items ++ spaced (pixel_parts rule pixel) }
    ensures len { array_vec_len line.new ≤ 95 }
{
    match (rule, pixel) {
        (Rule::Outside | Rule::Uncovered, Some((x, y))) => {
            push_number(line, x);
            push_number(line, y);
        }
        _ => {}
    }
}

/// The line of a finding.
pub fn finding_line(finding: &Finding) -> Line
    ensures { result.items ≡ finding_line finding.now }
{
    let mut line = ArrayVec::new();
    push_all(&mut line, b"broken ");
    push_all(&mut line, rule_name(finding.rule).as_bytes());
    push_number(&mut line, finding.place);
    push_pixel(&mut line, finding.rule, finding.pixel);
    line.push(b'\n');
    line
}

/// The line of a finding of a rule that a named terminal asks for.
pub fn asked_line(finding: &AskedFinding) -> Line
    ensures { result.items ≡ asked_line finding.now }
{
    let mut line = ArrayVec::new();
    push_all(&mut line, b"broken ");
    push_all(&mut line, finding.rule.name().as_bytes());
    push_number(&mut line, finding.place);
    line.push(b'\n');
    line
}

/// Writes the line of a finding, or on an `Err` a prefix of it. It doesn't flush.
pub fn write_finding<K: Sink>(finding: &Finding, out: &mut K) -> Result<(), DeviceFault>
    ensures { Writes result (K.state out.old) (K.state out.new) (finding_line finding.now) }
{
    put_all(out, finding_line(finding).as_slice())
}

/// The line of an outcome.
pub fn outcome_line(outcome: &Outcome) -> Line
    ensures { result.items ≡ outcome_line outcome.now }
{
    match outcome {
        Outcome::Portable { width, height } => size_line(*width, *height),
        Outcome::Broken(finding) => finding_line(finding),
    }
}
