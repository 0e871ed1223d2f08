//! The entries of a survey.

use arrayvec::ArrayVec;
use sixel_judge::Rule;
use sixel_model::RULE_COUNT;

/// A broken rule: how often it counts, and where it counts first.
///
/// A rule counts at each event that breaks it, except where another rule tells the same mistake. `Undefined` and
/// `Redefined` don't count for a register that the profile doesn't have (`Register` tells it). `Outside` and
/// `Uncovered` don't count for a box with a side out of range (`BoxSize` tells it), and `Uncovered` doesn't count after
/// a command that paints before the box is declared (`RasterFirst` tells it).
#[derive(Clone, Copy, Debug, PartialEq, Eq, Drop)]
pub struct Entry {
    pub rule: Rule,
    /// The number of events at which it counts. `Uncovered`: the number of unpainted pixels of the box.
    pub count: u64,
    /// The offset of the first byte of the first event at which it counts, from the start of the document.
    pub place: u64,
    /// The pixel of that event, as in `Finding`: the first one that it paints outside the box, or the first unpainted
    /// one. `None` for all rules but `Outside` and `Uncovered`.
    pub pixel: Option<(u64, u64)>,
}

/// All broken rules of a document, or the size of its picture.
#[derive(Debug, Drop)]
pub struct Survey {
    /// An entry for each rule that counts anywhere, in order of the rules' numbers.
    pub entries: ArrayVec<Entry, RULE_COUNT>,
    /// The width and the height of the picture in pixels, if there are no entries.
    pub size: Option<(u32, u32)>,
}

impl Default for Entry {
    /// An entry that counts nothing: what an `ArrayVec` holds where it has no entry.
    fn default() -> Entry {
        Entry {
            rule: Rule::RasterFirst,
            count: 0,
            place: 0,
            pixel: None,
        }
    }
}
