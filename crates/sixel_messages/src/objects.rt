//! The lines of `--json`: an object of JSON for each item, each refused input and each file that can't be opened.

ghost use Rattle.std.specs.Prelude.{◌≡◌, ◌+◌, ◌*◌, ◌≤◌, ◌∷◌, ◌++◌, [], length, option_copied};
ghost use Rattle.arrayvec.specs.ArrayVec.{array_vec_len};
ghost use Rattle.json.specs.Print.{escape, escape_byte, quoted};
ghost use Rattle.sixel_io.specs.Devices.{Writes};
ghost use Rattle.sixel_messages.specs.Json.{answer_members, asked_at, asked_entry_members, asked_members, broken_at};
ghost use Rattle.sixel_messages.specs.Json.{broken_members, entry_members, fault_members, file_member, finding_members};
ghost use Rattle.sixel_messages.specs.Json.{item_members, json_line, message_member, next_member, next_members};
ghost use Rattle.sixel_messages.specs.Json.{not_read_members, number_member, object_line, outcome_members};
ghost use Rattle.sixel_messages.specs.Json.{pixel_members, plain_refusal, refusal_members, refused_at, refused_members};
ghost use Rattle.sixel_messages.specs.Json.{size_members, string_members, text_member, unread_members, wrapped_members};

use crate::names::{is_plain, put_quoted, quoted_byte};
use crate::unopened::{Unopened, reason_words};
use arrayvec::ArrayVec;
use itoa::Buffer;
use sixel_check::{Finding, Outcome, Rule};
use sixel_emulator_check::NamedRule;
use sixel_emulator_rules::{AskedEntry, AskedFinding, AskedRule};
use sixel_explain::{Topic, summary, topic_name, topic_of};
use sixel_grammar::Fault;
use sixel_io::{DeviceFault, Sink};
use sixel_report::{Item, RunFault, named_rule_name, ppm_reason_name, reason_name};
use sixel_scan::{Answer, Scanned};
use sixel_survey::Entry;

/// What follows the file in an object, up to the end of its line: at most 1,156 bytes.
type Rest = ArrayVec<u8, 1156>;

fn push_all(text: &mut Rest, part: &[u8])
    requires { array_vec_len text.old + length part.now ≤ 1156 }
    ensures items { text.new.items ≡ text.old.items ++ part.now }
    ensures len { array_vec_len text.new ≡ array_vec_len text.old + length part.now }
{
    let _ = text.try_extend_from_slice(part);
}

/// A byte as between the quotes of a string.
fn push_byte(text: &mut Rest, byte: u8)
    requires { array_vec_len text.old + 6 ≤ 1156 }
    ensures items { text.new.items ≡ text.old.items ++ escape_byte byte }
    ensures len { array_vec_len text.new ≤ array_vec_len text.old + 6 }
{
    if is_plain(byte) {
        text.push(byte);
    } else {
        push_all(text, quoted_byte(byte).as_slice());
    }
}

/// A text as between the quotes of a string.
fn push_escaped(text: &mut Rest, part: &[u8])
    requires { array_vec_len text.old + 6 * length part.now ≤ 1156 }
    ensures items { text.new.items ≡ text.old.items ++ escape part.now }
    ensures len { array_vec_len text.new ≤ array_vec_len text.old + 6 * length part.now }
{
    for byte in part {
        push_byte(text, *byte);
    }
}

fn push_string(text: &mut Rest, part: &str)
    requires { array_vec_len text.old + 6 * length part.now + 2 ≤ 1156 }
    ensures items { text.new.items ≡ text.old.items ++ quoted part.now }
    ensures len { array_vec_len text.new ≤ array_vec_len text.old + 6 * length part.now + 2 }
{
    text.push(b'"');
    push_escaped(text, part.as_bytes());
    text.push(b'"');
}

/// The name of a member that isn't the first.
fn push_name(text: &mut Rest, name: &str)
    requires { array_vec_len text.old + 6 * length name.now + 4 ≤ 1156 }
    ensures items { text.new.items ≡ text.old.items ++ 44 ∷ (quoted name.now ++ 58 ∷ []) }
    ensures len { array_vec_len text.new ≤ array_vec_len text.old + 6 * length name.now + 4 }
{
    text.push(b',');
    push_string(text, name);
    text.push(b':');
}

/// A member that is a text.
fn push_text(text: &mut Rest, name: &str, value: &str)
    requires short { length name.now ≤ 8 }
    requires room { array_vec_len text.old + 6 * length value.now + 54 ≤ 1156 }
    ensures items { text.new.items ≡ text.old.items ++ next_member (text_member name.now value.now) }
    ensures len { array_vec_len text.new ≤ array_vec_len text.old + 6 * length value.now + 54 }
{
    push_name(text, name);
    push_string(text, value);
}

/// A member that is a number: it has at most 20 digits.
fn push_number(text: &mut Rest, name: &str, value: u64)
    requires short { length name.now ≤ 8 }
    requires room { array_vec_len text.old + 72 ≤ 1156 }
    ensures items { text.new.items ≡ text.old.items ++ next_member (number_member name.now value) }
    ensures len { array_vec_len text.new ≤ array_vec_len text.old + 72 }
{
    let mut buffer = Buffer::new();
    push_name(text, name);
    push_all(text, buffer.format(value).as_bytes());
}

/// What is wrong, in words.
fn push_message(text: &mut Rest, topic: Topic)
    requires { array_vec_len text.old + 594 ≤ 1156 }
    ensures items { text.new.items ≡ text.old.items ++ next_member (message_member topic) }
    ensures len { array_vec_len text.new ≤ array_vec_len text.old + 594 }
{
    push_text(text, "message", summary(topic));
}

/// The column and the row of a pixel, if the rule names one.
fn push_pixel(text: &mut Rest, rule: Rule, pixel: Option<(u64, u64)>)
    requires { array_vec_len text.old + 144 ≤ 1156 }
    ensures items { text.new.items ≡ text.old.items ++ next_members (pixel_members rule pixel) }
    ensures len { array_vec_len text.new ≤ array_vec_len text.old + 144 }
{
    match (rule, pixel) {
        (Rule::Outside | Rule::Uncovered, Some((x, y))) => {
            push_number(text, "x", x);
            push_number(text, "y", y);
        }
        _ => {}
    }
}

/// Which rule is broken.
fn push_broken(text: &mut Rest, rule: NamedRule)
    requires { array_vec_len text.old + 222 ≤ 1156 }
    ensures items { text.new.items ≡ text.old.items ++ next_members (broken_members rule) }
    ensures len { array_vec_len text.new ≤ array_vec_len text.old + 222 }
{
    push_text(text, "result", "broken");
    push_text(text, "rule", named_rule_name(rule));
}

/// Where a rule is broken, and what it forbids.
fn push_broken_at(text: &mut Rest, rule: Rule, place: u64, pixel: Option<(u64, u64)>)
    requires { array_vec_len text.old + 810 ≤ 1156 }
    ensures items { text.new.items ≡ text.old.items ++ next_members (broken_at rule place pixel) }
    ensures len { array_vec_len text.new ≤ array_vec_len text.old + 810 }
{
    push_number(text, "offset", place);
    push_pixel(text, rule, pixel);
    push_message(text, Topic::Rule(rule));
}

fn push_finding(text: &mut Rest, finding: &Finding)
    requires { array_vec_len text.old + 1032 ≤ 1156 }
    ensures items { text.new.items ≡ text.old.items ++ next_members (finding_members finding.now) }
    ensures len { array_vec_len text.new ≤ array_vec_len text.old + 1032 }
{
    push_broken(text, NamedRule::Portable(finding.rule));
    push_broken_at(text, finding.rule, finding.place, finding.pixel);
}

/// The same of a rule that a named terminal asks for. None names a pixel.
fn push_asked_at(text: &mut Rest, rule: AskedRule, place: u64)
    requires { array_vec_len text.old + 666 ≤ 1156 }
    ensures items { text.new.items ≡ text.old.items ++ next_members (asked_at rule place) }
    ensures len { array_vec_len text.new ≤ array_vec_len text.old + 666 }
{
    push_number(text, "offset", place);
    push_message(text, Topic::Asked(rule));
}

fn push_asked(text: &mut Rest, finding: &AskedFinding)
    requires { array_vec_len text.old + 888 ≤ 1156 }
    ensures items { text.new.items ≡ text.old.items ++ next_members (asked_members finding.now) }
    ensures len { array_vec_len text.new ≤ array_vec_len text.old + 888 }
{
    push_broken(text, NamedRule::Asked(finding.rule));
    push_asked_at(text, finding.rule, finding.place);
}

/// The size of a portable picture.
fn push_size(text: &mut Rest, width: u32, height: u32)
    requires { array_vec_len text.old + 246 ≤ 1156 }
    ensures items { text.new.items ≡ text.old.items ++ next_members (size_members width height) }
    ensures len { array_vec_len text.new ≤ array_vec_len text.old + 246 }
{
    push_text(text, "result", "portable");
    push_number(text, "width", u64::from(width));
    push_number(text, "height", u64::from(height));
}

fn push_outcome(text: &mut Rest, outcome: &Outcome)
    requires { array_vec_len text.old + 1032 ≤ 1156 }
    ensures items { text.new.items ≡ text.old.items ++ next_members (outcome_members outcome.now) }
    ensures len { array_vec_len text.new ≤ array_vec_len text.old + 1032 }
{
    match outcome {
        Outcome::Portable { width, height } => push_size(text, *width, *height),
        Outcome::Broken(finding) => push_finding(text, finding),
    }
}

fn push_entry(text: &mut Rest, entry: &Entry)
    requires { array_vec_len text.old + 1104 ≤ 1156 }
    ensures items { text.new.items ≡ text.old.items ++ next_members (entry_members entry.now) }
    ensures len { array_vec_len text.new ≤ array_vec_len text.old + 1104 }
{
    push_broken(text, NamedRule::Portable(entry.rule));
    push_number(text, "count", entry.count);
    push_broken_at(text, entry.rule, entry.place, entry.pixel);
}

fn push_asked_entry(text: &mut Rest, asked: &AskedEntry)
    requires { array_vec_len text.old + 960 ≤ 1156 }
    ensures items { text.new.items ≡ text.old.items ++ next_members (asked_entry_members asked.now) }
    ensures len { array_vec_len text.new ≤ array_vec_len text.old + 960 }
{
    push_broken(text, NamedRule::Asked(asked.rule));
    push_number(text, "count", asked.count);
    push_asked_at(text, asked.rule, asked.place);
}

/// Why an input is refused: the reason has at most 14 letters.
fn push_refused(text: &mut Rest, reason: &str)
    requires short { length reason.now ≤ 14 }
    requires room { array_vec_len text.old + 240 ≤ 1156 }
    ensures items { text.new.items ≡ text.old.items ++ next_members (refused_members reason.now) }
    ensures len { array_vec_len text.new ≤ array_vec_len text.old + 240 }
{
    push_text(text, "result", "refused");
    push_text(text, "reason", reason);
}

/// A refusal for this reason at this offset.
fn push_refused_at(text: &mut Rest, reason: &str, place: u64, topic: Topic)
    requires short { length reason.now ≤ 14 }
    requires room { array_vec_len text.old + 906 ≤ 1156 }
    ensures items { text.new.items ≡ text.old.items ++ next_members (refused_at reason.now place topic) }
    ensures len { array_vec_len text.new ≤ array_vec_len text.old + 906 }
{
    push_refused(text, reason);
    push_number(text, "offset", place);
    push_message(text, topic);
}

fn push_refusal(text: &mut Rest, fault: &Fault)
    requires { array_vec_len text.old + 906 ≤ 1156 }
    ensures items { text.new.items ≡ text.old.items ++ next_members (refusal_members fault.now) }
    ensures len { array_vec_len text.new ≤ array_vec_len text.old + 906 }
{
    let topic = Topic::Grammar(fault.reason);
    push_refused_at(text, reason_name(fault.reason), fault.place, topic);
}

fn push_answer(text: &mut Rest, answer: &Answer)
    requires { array_vec_len text.old + 1032 ≤ 1156 }
    ensures items { text.new.items ≡ text.old.items ++ next_members (answer_members answer.now) }
    ensures len { array_vec_len text.new ≤ array_vec_len text.old + 1032 }
{
    match answer {
        Answer::Portable { width, height } => push_size(text, *width, *height),
        Answer::Broken(finding) => push_finding(text, finding),
        Answer::Refused(fault) => push_refusal(text, fault),
    }
}

/// That a string of a scan is wrapped, if it is.
fn push_wrapped(text: &mut Rest, wrapped: bool)
    requires { array_vec_len text.old + 50 ≤ 1156 }
    ensures items { text.new.items ≡ text.old.items ++ next_members (wrapped_members wrapped) }
    ensures len { array_vec_len text.new ≤ array_vec_len text.old + 50 }
{
    if wrapped {
        push_name(text, "wrapped");
        push_all(text, b"true");
    }
}

/// A string of a scan.
fn push_scanned(text: &mut Rest, scanned: &Scanned)
    requires { array_vec_len text.old + 1154 ≤ 1156 }
    ensures items { text.new.items ≡ text.old.items ++ next_members (string_members scanned.now) }
    ensures len { array_vec_len text.new ≤ array_vec_len text.old + 1154 }
{
    push_number(text, "string", scanned.place);
    push_wrapped(text, scanned.wrapped);
    push_answer(text, &scanned.answer);
}

#[tactic(auto, unfolding(crate::specs::Json::item_members))]
fn push_item(text: &mut Rest, item: &Item)
    requires { array_vec_len text.old + 1154 ≤ 1156 }
    ensures items { text.new.items ≡ text.old.items ++ next_members (item_members item.now) }
    ensures len { array_vec_len text.new ≤ array_vec_len text.old + 1154 }
{
    match item {
        Item::Outcome(outcome) => push_outcome(text, outcome),
        Item::Asked(finding) => push_asked(text, finding),
        Item::Entry(entry) => push_entry(text, entry),
        Item::AskedEntry(entry) => push_asked_entry(text, entry),
        Item::String(scanned) => push_scanned(text, scanned),
        // A comparison of terminals has no JSON.
        Item::Same { .. } | Item::Group(_) | Item::Unmodelled { .. } => {}
    }
}

/// Not read for this reason.
fn push_not_read(text: &mut Rest, reason: &str)
    requires room { array_vec_len text.old + 6 * length reason.now + 750 ≤ 1156 }
    ensures items { text.new.items ≡ text.old.items ++ next_members (not_read_members reason.now) }
    ensures len { array_vec_len text.new ≤ array_vec_len text.old + 6 * length reason.now + 750 }
{
    push_text(text, "result", "unread");
    push_text(text, "reason", reason);
    push_message(text, Topic::Read);
}

/// A refusal with no offset.
fn push_plain_refusal(text: &mut Rest, topic: Topic)
    requires { array_vec_len text.old + 906 ≤ 1156 }
    ensures items { text.new.items ≡ text.old.items ++ next_members (plain_refusal topic) }
    ensures len { array_vec_len text.new ≤ array_vec_len text.old + 906 }
{
    push_refused(text, topic_name(topic));
    push_message(text, topic);
}

/// Why an input is refused, or that it couldn't be read.
#[tactic(auto, unfolding(crate::specs::Json::fault_members))]
fn push_fault(text: &mut Rest, fault: &RunFault)
    requires { array_vec_len text.old + 906 ≤ 1156 }
    ensures items { text.new.items ≡ text.old.items ++ next_members (fault_members fault.now) }
    ensures len { array_vec_len text.new ≤ array_vec_len text.old + 906 }
{
    match fault {
        RunFault::Grammar(fault) => push_refusal(text, fault),
        RunFault::Ppm { reason, place } => {
            push_refused_at(text, ppm_reason_name(*reason), *place, Topic::Ppm(*reason))
        }
        RunFault::Read => push_not_read(text, "read failed"),
        _ => push_plain_refusal(text, topic_of(fault)),
    }
}

/// Writes an object of the file with this label and of what follows it, on a line of its own.
fn put_object<K: Sink>(label: Option<&str>, rest: &mut Rest, out: &mut K) -> Result<(), DeviceFault>
    requires { array_vec_len rest.old + 2 ≤ 1156 }
    ensures { Writes result (K.state out.old) (K.state out.new)
        (object_line (option_copied label.entry) rest.old.items) }
{
    push_all(rest, b"}\n");
    match label {
        Some(name) => put_quoted(out, b"{\"file\":\"", name, b"\"", rest.as_slice()),
        None => put_quoted(out, b"{\"file\":null", "", b"", rest.as_slice()),
    }
}

/// Writes the object of an item of the file with this label.
pub(crate) fn put_item_object<K: Sink>(
    label: Option<&str>,
    item: &Item,
    out: &mut K,
) -> Result<(), DeviceFault>
    ensures { Writes result (K.state out.old) (K.state out.new)
        (json_line (file_member (option_copied label.entry) ∷ item_members item.now)) }
{
    let mut rest = ArrayVec::new();
    push_item(&mut rest, item);
    put_object(label, &mut rest, out)
}

/// Writes the object of a fault in the input with this label.
pub(crate) fn put_fault_object<K: Sink>(
    label: Option<&str>,
    fault: &RunFault,
    out: &mut K,
) -> Result<(), DeviceFault>
    ensures { Writes result (K.state out.old) (K.state out.new)
        (json_line (file_member (option_copied label.entry) ∷ fault_members fault.now)) }
{
    let mut rest = ArrayVec::new();
    push_fault(&mut rest, fault);
    put_object(label, &mut rest, out)
}

/// Writes the object of a file that can't be opened for this reason.
#[tactic(auto, unfolding(crate::specs::Json::unread_members))]
pub(crate) fn put_unread_object<K: Sink>(
    label: Option<&str>,
    reason: Unopened,
    out: &mut K,
) -> Result<(), DeviceFault>
    ensures { Writes result (K.state out.old) (K.state out.new)
        (json_line (file_member (option_copied label.entry) ∷ unread_members reason)) }
{
    let mut rest = ArrayVec::new();
    push_not_read(&mut rest, reason_words(reason));
    put_object(label, &mut rest, out)
}
