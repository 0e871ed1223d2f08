//! What `explain` prints about rules and refusals.

ghost use Rattle.std.specs.Prelude.{◌==◌, ◌≡◌, ◌≤◌, IfSome, IsNone, length};
ghost use Rattle.std.specs.List.{after_first, before_first};
ghost use Rattle.std.specs.Str.{str_to_ascii_lowercase};
ghost use Rattle.sixel_explain.specs.Explanations.{IsExplanation, summary, topic_name, topic_of};
ghost use Rattle.sixel_explain.specs.declared.explanations.Topic.{Topic as ATopic};

use crate::asked_rules::{asked_rule_named, of_asked_rule};
use crate::refusals;
use crate::refusals::{of_ppm_reason, of_reason, ppm_reason_named, reason_named};
use crate::rules::{of_rule, rule_named};
use sixel_check::Rule;
use sixel_emulator_rules::AskedRule;
use sixel_grammar::Reason;
use sixel_ppm::PpmReason;
use sixel_report::{RunFault, ppm_reason_name, reason_name, rule_name};

/// What can be explained: a rule, or why a run was refused.
#[derive(Clone, Copy, Debug, PartialEq, Eq, Drop)]
pub enum Topic {
    Rule(Rule),
    /// A rule that a named terminal asks for.
    Asked(AskedRule),
    /// Why bytes are no sixel document.
    Grammar(Reason),
    /// Why bytes are no PPM.
    Ppm(PpmReason),
    NotRgb,
    NoBox,
    /// The model of a terminal doesn't say what it does at an event.
    Unmodelled,
    /// A stream has no sixel string.
    NoString,
    /// A mended picture has no pixels.
    Empty,
    /// A side of a mended picture is above 2,048.
    TooLarge,
    OutOfMemory,
    Read,
    Write,
}

/// The name by which `explain` knows a topic.
pub fn topic_name(topic: Topic) -> &'static str
    ensures text { result.now ≡ topic_name topic }
    ensures short { length result.now ≤ 14 }
{
    match topic {
        Topic::Rule(rule) => rule_name(rule),
        Topic::Asked(rule) => rule.name(),
        Topic::Grammar(reason) => reason_name(reason),
        Topic::Ppm(reason) => ppm_reason_name(reason),
        Topic::NotRgb => "NotRgb",
        Topic::NoBox => "NoBox",
        Topic::Unmodelled => "Unmodelled",
        Topic::NoString => "NoString",
        Topic::Empty => "Empty",
        Topic::TooLarge => "TooLarge",
        Topic::OutOfMemory => "OutOfMemory",
        Topic::Read => "Read",
        Topic::Write => "Write",
    }
}

/// The topic of a fault.
pub fn topic_of(fault: &RunFault) -> Topic
    ensures { result ≡ topic_of fault.now }
{
    match fault {
        RunFault::Grammar(fault) => Topic::Grammar(fault.reason),
        RunFault::Ppm { reason, .. } => Topic::Ppm(*reason),
        RunFault::NotRgb => Topic::NotRgb,
        RunFault::NoBox => Topic::NoBox,
        RunFault::Unmodelled { .. } => Topic::Unmodelled,
        RunFault::NoString => Topic::NoString,
        RunFault::Large { .. } => Topic::Asked(AskedRule::Large),
        RunFault::Hue => Topic::Asked(AskedRule::Hue),
        RunFault::Empty => Topic::Empty,
        RunFault::TooLarge => Topic::TooLarge,
        RunFault::TooManyColours => Topic::Ppm(PpmReason::TooManyColours),
        RunFault::OutOfMemory => Topic::OutOfMemory,
        RunFault::Read => Topic::Read,
        RunFault::Write => Topic::Write,
    }
}

/// The topic whose name this is in small letters. `trailing` gives the one of sixel text; a PPM's has the same
/// explanation.
pub(crate) fn topic_named(name: &str) -> Option<Topic>
    ensures found { IfSome result (λ topic. str_to_ascii_lowercase (topic_name topic) ≡ name.now) }
    ensures none { IsNone result → (topic : ATopic) → str_to_ascii_lowercase (topic_name topic) ≡ name.now → ⊥ }
{
    match rule_named(name) {
        Some(rule) => Some(Topic::Rule(rule)),
        None => match asked_rule_named(name) {
            Some(rule) => Some(Topic::Asked(rule)),
            None => match reason_named(name) {
                Some(reason) => Some(Topic::Grammar(reason)),
                None => match ppm_reason_named(name) {
                    Some(reason) => Some(Topic::Ppm(reason)),
                    None => match name {
                        "notrgb" => Some(Topic::NotRgb),
                        "nobox" => Some(Topic::NoBox),
                        "unmodelled" => Some(Topic::Unmodelled),
                        "nostring" => Some(Topic::NoString),
                        "empty" => Some(Topic::Empty),
                        "toolarge" => Some(Topic::TooLarge),
                        "outofmemory" => Some(Topic::OutOfMemory),
                        "read" => Some(Topic::Read),
                        "write" => Some(Topic::Write),
                        _ => None,
                    },
                },
            },
        },
    }
}

/// What follows a topic's name in the list of names and in its explanation.
#[tactic(auto, using(crate::proofs::SummaryLemmas::cut_explanation, crate::proofs::SummaryLemmas::is_short))]
pub fn summary(topic: Topic) -> &'static str
    ensures text { result.now ≡ summary topic }
    ensures short { length result.now ≤ 69 }
{
    summary_in(explanation(Some(topic)))
}

/// What follows the first space of a text, up to the end of the line.
fn summary_in(text: &'static str) -> &'static str
    ensures { result.now ≡ before_first (λ byte. byte == 10) (after_first (λ byte. byte == 32) text.now) }
{
    let (_, rest) = text.split_once(' ').unwrap_or((text, ""));
    let (summary, _) = rest.split_once('\n').unwrap_or((rest, ""));
    summary
}

/// The explanation of a topic, or the list of all names with their summaries, one per line. It ends with a line feed.
pub fn explanation(topic: Option<Topic>) -> &'static str
    ensures { IsExplanation topic result.now }
{
    match topic {
        None => LIST,
        Some(Topic::Rule(rule)) => of_rule(rule),
        Some(Topic::Asked(rule)) => of_asked_rule(rule),
        Some(Topic::Grammar(reason)) => of_reason(reason),
        Some(Topic::Ppm(reason)) => of_ppm_reason(reason),
        Some(Topic::NotRgb) => refusals::NOT_RGB,
        Some(Topic::NoBox) => refusals::NO_BOX,
        Some(Topic::Unmodelled) => refusals::UNMODELLED,
        Some(Topic::NoString) => refusals::NO_STRING,
        Some(Topic::Empty) => refusals::EMPTY,
        Some(Topic::TooLarge) => refusals::TOO_LARGE,
        Some(Topic::OutOfMemory) => refusals::OUT_OF_MEMORY,
        Some(Topic::Read) => refusals::READ,
        Some(Topic::Write) => refusals::WRITE,
    }
}

const LIST: &str = "RasterFirst: data, return, new line or terminator before any raster attributes
RasterTwice: raster attributes more than once
Ratio: a pixel aspect ratio not written as 1;1
BoxSize: a width or height outside 1 to 2,048
Register: a register above 15, or above 255 with --wide
ColourValue: a colour system other than 1 or 2, or a coordinate out of range
RepeatZero: a repeat of 0
Unselected: painting while no register is known
Undefined: painting in a register that is not defined yet
Redefined: a different colour for a register already painted in
Outside: a set bit outside the box
Uncovered: a pixel of the box that no set bit covers, at the terminator
EightBit: the byte 90 as the introducer, or 9C as the terminator
RasterLate: raster attributes after a selection or a definition
Dropped: a return right after a selection, definition or raster attributes
Stale: painting in a colour that came after the selection
Large: a width above 1,000 or a height above 996
Rows: a height that is no multiple of six
Past: blanks right of the box or below it
Hue: a colour of hue, lightness and saturation
Far: sixels right of the box, far below it or past column 32,767
Introducer: an introducer by which xterm draws nothing or mlterm may mix colours
Bare: a selection without a number
SpaceAfter: a space after the terminator
NotSixel: input that doesn't start like a sixel string
BadByte: unexpected byte
NumberTooLarge: a number above 65,535
FieldCount: too many or too few numbers in a command
BadRepeat: a repeat without a sixel after its count
BadTerminator: an ESC that isn't followed by \\
Truncated: input that ends before the terminator is complete
TooLong: input of more than 268,435,456 bytes
Trailing: data after the terminator, or after the last sample of a PPM
Header: not a valid P6 header
Size: a PPM width or height outside 1 to 2,048
Maxval: a PPM maxval outside 1 to 255
Sample: a PPM sample above the maxval
TooManyColours: a picture of more than 16 colours, or more than 256 with --wide
Short: a PPM that ends before its last sample
NotRgb: a colour of hue, lightness and saturation that would appear in a PPM
NoBox: a text that declares no box of a possible screen size
Unmodelled: a command that the model of the named terminal doesn't cover
NoString: input to scan that has no sixel string
Empty: a text that paints nothing and declares no width or no height
TooLarge: a text for mend or differ whose picture has a side above 2,048
OutOfMemory: an allocation failed
Read: input that couldn't be opened or read
Write: output that couldn't be written
";
