//! Messages about a run: why the input was refused, that it is empty, and how to convert one of another format.

ghost use Rattle.std.specs.Prelude.{◌≡◌, ◌≤◌, ◌++◌, Ok, length, option_copied};
ghost use Rattle.sixel_io.specs.Devices.{Writes};
ghost use Rattle.sixel_messages.specs.Messages.{complaint, fault_said, labelled};
ghost use Rattle.sixel_messages.specs.Formats.{advice_for, advice_on, format_advice, is_of_empty};
ghost use Rattle.sixel_messages.specs.Names.{unopened_line};

use crate::formats::{Format, ppm_advice, sixel_advice};
use crate::names::put_named;
use crate::notes::put_note;
use crate::unopened::{Unopened, reason_text};
use sixel_grammar::{Fault, Reason};
use sixel_io::{DeviceFault, Sink, put_all};
use sixel_ppm::PpmReason;
use sixel_report::{
    Lines, RunFault, Status, Task, fault_line, finding_line, is_quiet, write_fault,
};

/// The length of `sixel:`, after which the line of a fault has the input's name.
const MARK: usize = 6;

/// Whether the input has no bytes: it ends too early at offset 0.
fn is_of_empty(fault: &RunFault) -> bool
    ensures { result ≡ is_of_empty fault.now }
{
    match fault {
        RunFault::Grammar(
            Fault {
                reason: Reason::Truncated,
                place,
            },
        )
        | RunFault::Ppm {
            reason: PpmReason::Short,
            place,
        } => *place == 0,
        _ => false,
    }
}

/// The line on an input without bytes.
const EMPTY: &str = "sixel: the input is empty\n";

/// How to convert an input of this format, if it was refused within the magic number. For a scan without a string: that
/// the input is empty, if it is. Otherwise nothing.
fn format_advice(format: Option<Format>, fault: &RunFault) -> &'static str
    ensures text { result.now ≡ format_advice format fault.now }
    ensures short { length result.now ≤ 125 }
{
    match (format, fault) {
        (
            Some(format),
            RunFault::Ppm {
                reason: PpmReason::Header,
                place,
            },
        ) if *place <= 1 => ppm_advice(format),
        (
            Some(format),
            RunFault::Grammar(
                Fault {
                    reason: Reason::NotSixel,
                    place,
                },
            ),
        ) if *place <= 1 => sixel_advice(format),
        (Some(Format::Empty), RunFault::NoString) => EMPTY,
        _ => "",
    }
}

/// What follows the line of a fault: that the input is empty, or how to convert it.
fn advice(format: Option<Format>, fault: &RunFault) -> &'static str
    ensures text { result.now ≡ advice_on format fault.now }
    ensures short { length result.now ≤ 125 }
{
    if is_of_empty(fault) {
        EMPTY
    } else {
        format_advice(format, fault)
    }
}

/// Writes a line about an input, after the input's name if it has one.
pub fn put_labelled<K: Sink>(
    name: Option<&str>,
    line: &[u8],
    out: &mut K,
) -> Result<(), DeviceFault>
    ensures { Writes result (K.state out.old) (K.state out.new) (labelled (option_copied name.entry) line.now) }
{
    match name {
        Some(name) => put_named(out, b"", name, b": ", line),
        None => put_all(out, line),
    }
}

/// Writes the line of a fault, with the input's name if it has one. A failed write isn't the input's fault, so its
/// line has no name.
pub fn put_fault<K: Sink>(
    name: Option<&str>,
    fault: &RunFault,
    out: &mut K,
) -> Result<(), DeviceFault>
    ensures { Writes result (K.state out.old) (K.state out.new) (fault_said (option_copied name.entry) fault.now) }
{
    match (name, fault) {
        (Some(_), RunFault::Write) => write_fault(fault, out),
        (Some(name), _) => put_named(
            out,
            b"sixel: ",
            name,
            b":",
            &fault_line(fault).as_slice()[MARK..],
        ),
        (None, _) => write_fault(fault, out),
    }
}

/// Writes why the file with this name can't be opened.
pub fn put_unopened<K: Sink>(name: &str, reason: Unopened, out: &mut K) -> Result<(), DeviceFault>
    ensures { Writes result (K.state out.old) (K.state out.new) (unopened_line name.now reason) }
{
    put_named(out, b"sixel: ", name, b":", reason_text(reason).as_slice())
}

/// Writes why an input of this format was refused, and then that it is empty, or how to convert it to what the task
/// reads.
pub fn put_refusal<K: Sink>(
    name: Option<&str>,
    format: Option<Format>,
    fault: &RunFault,
    out: &mut K,
) -> Result<(), DeviceFault>
    ensures { Writes result (K.state out.old) (K.state out.new)
        (fault_said (option_copied name.entry) fault.now ++ advice_on format fault.now) }
{
    put_fault(name, fault, out)?;
    put_all(out, advice(format, fault).as_bytes())
}

/// Writes which rule kept a picture from being rendered, or what may surprise.
fn put_status<K: Sink>(
    task: &Task,
    lines: Lines,
    name: Option<&str>,
    status: &Status,
    out: &mut K,
) -> Result<(), DeviceFault>
    ensures { Writes result (K.state out.old) (K.state out.new)
        (complaint task.now lines (option_copied name.entry) (Ok status.now)) }
{
    match (status, task) {
        (Status::Broken(finding), Task::Render { .. }) => {
            put_labelled(name, finding_line(finding).as_slice(), out)
        }
        (Status::Noted(note), _) if !is_quiet(lines) => put_note(*note, out),
        _ => Ok(()),
    }
}

/// Writes the line about a run: why the input was refused, which rule its picture breaks, or what may surprise. Advice
/// on an input of this format follows.
pub fn put_said<K: Sink>(
    task: &Task,
    lines: Lines,
    name: Option<&str>,
    format: Option<Format>,
    answer: &Result<Status, RunFault>,
    out: &mut K,
) -> Result<(), DeviceFault>
    ensures { Writes result (K.state out.old) (K.state out.new)
        (complaint task.now lines (option_copied name.entry) answer.now ++ advice_for format answer.now) }
{
    match answer {
        Ok(status) => put_status(task, lines, name, status, out),
        Err(fault) => put_refusal(name, format, fault, out),
    }
}
