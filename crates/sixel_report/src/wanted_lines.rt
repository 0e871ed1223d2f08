//! Which lines a task with lines writes: a check, a survey, a scan or a comparison of terminals.

ghost use Rattle.std.specs.Prelude.{◌≡◌};
ghost use Rattle.sixel_report.specs.Lines.{all_of, is_json, is_portable_item, is_quiet};

use crate::item::Item;
use sixel_check::Outcome;
use sixel_scan::Answer;

/// Which lines a task with lines writes, and in which form. Any other task only may be quiet or not.
#[derive(Clone, Copy, Debug, PartialEq, Eq)]
pub enum Lines {
    /// None, and no note. Why an input is refused is said all the same, and a scan has all of its lines.
    Nothing {
        /// Whether those are objects of JSON.
        is_json: bool,
    },
    /// A line for each answer, or only for each that isn't portable.
    Plain {
        only_failed: bool,
    },
    /// An object of JSON in place of each line, and one for each input that is refused or can't be read.
    Json {
        only_failed: bool,
    },
}

/// Whether nothing is written of an input that isn't refused.
pub fn is_quiet(lines: Lines) -> bool
    ensures { result ≡ is_quiet lines }
{
    matches!(lines, Lines::Nothing { .. })
}

/// Whether they are objects of JSON.
pub fn is_json(lines: Lines) -> bool
    ensures { result ≡ is_json lines }
{
    matches!(lines, Lines::Json { .. })
}

/// As many lines as there are, in the same form.
pub fn all_of(lines: Lines) -> Lines
    ensures { result ≡ all_of lines }
{
    match lines {
        Lines::Json { .. } | Lines::Nothing { is_json: true } => Lines::Json { only_failed: false },
        _ => Lines::Plain { only_failed: false },
    }
}

/// Whether a line says that a picture is portable.
pub fn is_portable_item(item: &Item) -> bool
    ensures { result ≡ is_portable_item item.now }
{
    match item {
        Item::Outcome(Outcome::Portable { .. }) => true,
        Item::String(scanned) => matches!(scanned.answer, Answer::Portable { .. }),
        _ => false,
    }
}
