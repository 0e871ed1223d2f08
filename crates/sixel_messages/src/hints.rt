//! The hints after a check or a survey of an input that isn't portable.

ghost use Rattle.std.specs.Prelude.{◌≡◌, ◌+◌, ◌≤◌, ◌++◌, [], length, map};
ghost use Rattle.std.specs.List.{IsDistinct, IsDistinct-prop, list_any};
ghost use Rattle.arrayvec.specs.ArrayVec.{array_vec_len};
ghost use Rattle.sixel_io.specs.Devices.{change};
ghost use Rattle.sixel_messages.specs.Puts.{ArePut};
ghost use Rattle.sixel_report.specs.RuleSets.{rules_in};
ghost use Rattle.sixel_messages.specs.Hints.{cause_name, causes_in, hint_line, hinted, hints_of, is_same, option_hint};
ghost use Rattle.sixel_messages.specs.Hints.{with_cause, with_causes};
ghost use Rattle.sixel_messages.specs.declared.hints.Cause.TheVariants.{Rule as RuleCause};

use crate::shown::Shown;
use arrayvec::ArrayVec;
use sixel_emulator_check::{ALL_NAMED_RULES, NamedRule};
use sixel_grammar::Reason;
use sixel_io::{Sink, put_all};
use sixel_model::{Profile, Rule};
use sixel_report::{
    Lines, RuleSet, RunFault, Status, Task, is_quiet, named_rule_name, reason_name,
};

/// What is wrong with an input.
#[derive(Clone, Copy, Debug, PartialEq, Eq, Drop)]
pub enum Cause {
    /// This rule is broken.
    Rule(NamedRule),
    /// It is no sixel text.
    Refusal(Reason),
}

/// What fills the room of an `ArrayVec` that isn't in use.
impl Default for Cause {
    fn default() -> Cause {
        Cause::Rule(NamedRule::Portable(Rule::RasterFirst))
    }
}

/// The name that `explain` knows it by.
fn cause_name(cause: Cause) -> &'static str
    ensures text { result.now ≡ cause_name cause }
    ensures short { length result.now ≤ 14 }
{
    match cause {
        Cause::Rule(rule) => named_rule_name(rule),
        Cause::Refusal(reason) => reason_name(reason),
    }
}

/// For a register above 15 there is an option.
fn option_hint(cause: Cause, profile: Profile) -> &'static str
    ensures text { result.now ≡ option_hint cause profile }
    ensures short { length result.now ≤ 36 }
{
    match (cause, profile) {
        (Cause::Rule(NamedRule::Portable(Rule::Register)), Profile::Registers16) =>
            "; '--wide' checks for 256 registers",
        _ => "",
    }
}

/// A hint, with its line feed: at most 94 bytes.
type Hint = ArrayVec<u8, 96>;

fn push_all(line: &mut Hint, text: &[u8])
    requires { array_vec_len line.old + length text.now ≤ 96 }
    ensures items { line.new.items ≡ line.old.items ++ text.now }
    ensures len { array_vec_len line.new ≡ array_vec_len line.old + length text.now }
{
    let _ = line.try_extend_from_slice(text);
}

/// Which explanation helps, and for a register above 15 which option.
fn hint_line(profile: Profile, cause: Cause) -> Hint
    ensures { result.items ≡ hint_line profile cause }
{
    let mut line = ArrayVec::new();
    push_all(&mut line, b"sixel: 'sixel explain ");
    push_all(&mut line, cause_name(cause).as_bytes());
    push_all(&mut line, b"' tells how to fix it");
    push_all(&mut line, option_hint(cause, profile).as_bytes());
    line.push(b'\n');
    line
}

/// How many there are: thirteen rules of portable pictures, eleven that named terminals ask for, and nine reasons for
/// no sixel text.
const CAUSE_COUNT: usize = 33;

/// What was found wrong, each once, in the order in which it was found first.
#[derive(Drop)]
pub struct Causes {
    pub found: ArrayVec<Cause, CAUSE_COUNT>,
    /// No two of them are the same.
    ghost distinct: { IsDistinct is_same found.items } by { IsDistinct-prop is_same found.items },
}

impl Causes {
    pub fn new() -> Causes
        ensures { result.found.items ≡ [] }
    {
        Causes {
            found: ArrayVec::new(),
        }
    }

    /// Adds what a run with this answer found wrong, unless it is there.
    pub fn note(&mut self, answer: &Result<Status, RunFault>)
        ensures { self.new.found.items ≡ with_causes self.old.found.items (causes_in answer.now) }
    {
        match answer {
            Ok(Status::Broken(finding)) => self.add(Cause::Rule(NamedRule::Portable(finding.rule))),
            Ok(Status::Asked(finding)) => self.add(Cause::Rule(NamedRule::Asked(finding.rule))),
            Ok(Status::Surveyed { first, rules }) => {
                self.add(Cause::Rule(first.rule()));
                self.add_each(rules);
            }
            Err(RunFault::Grammar(fault)) => self.add(Cause::Refusal(fault.reason)),
            _ => {}
        }
    }

    fn add(&mut self, cause: Cause)
        ensures { self.new.found.items ≡ with_cause self.old.found.items cause }
    {
        if !is_among(self.found.as_slice(), cause) {
            self.found.push(cause);
        }
    }

    /// Adds these rules, in order of number.
    fn add_each(&mut self, rules: &RuleSet)
        ensures { self.new.found.items ≡ with_causes self.old.found.items (map RuleCause (rules_in rules.now)) }
    {
        for rule in ALL_NAMED_RULES {
            if rules.has(rule) {
                self.add(Cause::Rule(rule));
            }
        }
    }

    pub fn as_slice(&self) -> &[Cause]
        ensures { result.now ≡ self.now.found.items }
    {
        self.found.as_slice()
    }
}

/// Whether one of the causes is the same.
fn is_among(causes: &[Cause], cause: Cause) -> bool
    ensures { result ≡ list_any (is_same cause) causes.now }
{
    for other in causes {
        if cause_name(cause) == cause_name(*other) {
            return true;
        }
    }
    false
}

/// Those of the causes that have a hint.
fn hinted<'a>(lines: Lines, shown: Shown, causes: &'a [Cause]) -> &'a [Cause]
    ensures { result.now ≡ hinted lines shown causes.now }
{
    if is_quiet(lines) {
        return &[];
    }
    if shown.explains {
        return causes;
    }
    if shown.is_terminal {
        return &causes[..causes.len().min(1)];
    }
    &[]
}

/// Writes the hints on these causes, each on a line.
fn put_each<E: Sink>(profile: Profile, causes: &[Cause], errors: &mut E)
    ensures { ArePut (map (hint_line profile) causes.now) (change (E.state errors.old) (E.state errors.new)) }
{
    for cause in causes {
        let _ = put_all(errors, hint_line(profile, *cause).as_slice());
    }
}

/// Writes the hints of a task on what was found wrong. Only a check and a survey have some.
pub fn put_hints<E: Sink>(task: &Task, lines: Lines, shown: Shown, causes: &[Cause], errors: &mut E)
    ensures { ArePut (hints_of task.now (hinted lines shown causes.now))
        (change (E.state errors.old) (E.state errors.new)) }
{
    match task {
        Task::Check { profile, .. } | Task::Survey { profile, .. } => {
            put_each(*profile, hinted(lines, shown, causes), errors);
        }
        _ => {}
    }
}
