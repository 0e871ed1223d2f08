//! What is written of each input: its lines, and why it was refused.

ghost use Rattle.std.specs.Prelude.{◌≡◌, ◌≢◌, [], Err, IfErr, IfOk, None, Some, false, option_copied, true};
ghost use Rattle.sixel_io.specs.Devices.{Writes, change};
ghost use Rattle.sixel_messages.specs.Reports.{name_of, refusal_text, said_of_file, written_for};
ghost use Rattle.sixel_messages.specs.Puts.{ArePut};
ghost use Rattle.sixel_report.specs.Lines.{is_quiet};
ghost use Rattle.sixel_report.specs.declared.fault.RunFault.TheVariants.{Read, Write};

use crate::formats::Format;
use crate::objects::{put_fault_object, put_item_object, put_unread_object};
use crate::saying::{put_labelled, put_refusal, put_unopened};
use crate::unopened::Unopened;
use sixel_io::{DeviceFault, Sink};
use sixel_report::{Item, Lines, PutItem, RunFault, Status, is_json, is_portable_item, item_line};

/// Writes what is found in the input with this label, or without one.
#[derive(Clone, Copy)]
pub struct Labelled<'a> {
    pub lines: Lines,
    pub label: Option<&'a str>,
}

impl<'a> PutItem for Labelled<'a> {
    ghost written = { λ labelled item. written_for labelled.lines (option_copied labelled.label) item };

    fn put_item<K: Sink>(&self, item: &Item, out: &mut K) -> Result<(), DeviceFault> {
        match self.lines {
            Lines::Nothing { .. } => Ok(()),
            Lines::Plain { only_failed: true } | Lines::Json { only_failed: true }
                if is_portable_item(item) => Ok(()),
            Lines::Plain { .. } => put_labelled(self.label, item_line(item).as_slice(), out),
            Lines::Json { .. } => put_item_object(self.label, item, out),
        }
    }

    fn put_items<K: Sink>(&self, items: &[Item], out: &mut K) -> Result<(), DeviceFault> {
        for said in items {
            self.put_item(said, out)?;
        }
        Ok(())
    }
}

/// Says why an input was refused, if it was: in JSON on the output, and otherwise on the errors, with the advice on its
/// format. The input has this label or none. Returns the answer of the task, or an `Err` if the output failed.
pub fn say_answer<K: Sink, E: Sink>(
    lines: Lines,
    label: Option<&str>,
    format: Option<Format>,
    answer: Result<Status, RunFault>,
    output: &mut K,
    errors: &mut E,
) -> Result<Result<Status, RunFault>, DeviceFault>
    requires { answer ≢ Err Write }
    ensures answer { IfOk result (λ answered. answered ≡ answer) }
    ensures put { Writes result (K.state output.old) (K.state output.new)
        (refusal_text lines (option_copied label.entry) None answer) }
    ensures said { ArePut (said_of_file lines (option_copied label.entry) None format answer)
        (change (E.state errors.old) (E.state errors.new)) }
    ensures silent { IfErr result (λ _. said_of_file lines (option_copied label.entry) None format answer ≡ []) }
    ensures unchanged { IfErr result (λ _. E.state errors.new ≡ E.state errors.old) }
    ensures loud { IfErr result (λ _. is_quiet lines ≡ false) }
    ensures untouched { is_quiet lines ≡ true → output.new ≡ output.old }
{
    let fault = match answer {
        Ok(_) => return Ok(answer),
        Err(fault) => fault,
    };
    if is_json(lines) {
        put_fault_object(label, &fault, output)?;
    } else {
        let _ = put_refusal(label, format, &fault, errors);
    }
    Ok(Err(fault))
}

/// The name of the input with this label: `-` without one.
pub fn name_of(label: Option<&str>) -> &str
    ensures { result.now ≡ name_of (option_copied label.entry) }
{
    match label {
        Some(name) => name,
        None => "-",
    }
}

/// Says why the file with this label can't be opened, in the same way. Returns an `Err` if the output failed.
pub fn say_unopened<K: Sink, E: Sink>(
    lines: Lines,
    label: Option<&str>,
    reason: Unopened,
    output: &mut K,
    errors: &mut E,
) -> Result<(), DeviceFault>
    ensures put { Writes result (K.state output.old) (K.state output.new)
        (refusal_text lines (option_copied label.entry) (Some reason) (Err Read)) }
    ensures said { ArePut (said_of_file lines (option_copied label.entry) (Some reason) None (Err Read))
        (change (E.state errors.old) (E.state errors.new)) }
    ensures silent { IfErr result (λ _.
        said_of_file lines (option_copied label.entry) (Some reason) None (Err Read) ≡ []) }
    ensures unchanged { IfErr result (λ _. E.state errors.new ≡ E.state errors.old) }
    ensures loud { IfErr result (λ _. is_quiet lines ≡ false) }
    ensures untouched { is_quiet lines ≡ true → output.new ≡ output.old }
{
    if is_json(lines) {
        return put_unread_object(label, reason, output);
    }
    let _ = put_unopened(name_of(label), reason, errors);
    Ok(())
}
