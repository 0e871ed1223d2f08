//! Whether the check agrees with the plain judge.

use crate::steps::verdict_by_events;
use sixel_check::{Verdict, check_bytes};
use sixel_grammar::{Fault, InputFault, Placed, read_all};
use sixel_io::SliceSource;
use sixel_model::{ALL_RULES, Profile, RULE_COUNT};
use sixel_plain::{Documents, Made, PlainVerdict, is_left, judge_events};
use std::alloc::{AllocError, Global};

/// Neighbours are judged only of documents with at most this many bytes.
const MOST_SWEPT: usize = 64;

/// The bytes that replace each byte in turn.
const BYTES: [u8; 6] = *b"@-#1;\"";

/// Whether the verdict agrees with the plain judge's: the same finding, or the picture that the events leave.
fn is_plain(
    alloc: Global,
    profile: Profile,
    events: &[Placed],
    verdict: &Verdict,
    plain: PlainVerdict,
) -> Result<bool, AllocError> {
    match (verdict, plain) {
        (Verdict::Broken(finding), PlainVerdict::Broken(other)) => Ok(*finding == other),
        (Verdict::Portable(picture), PlainVerdict::Portable { .. }) => {
            is_left(alloc, profile, events, picture)
        }
        _ => Ok(false),
    }
}

/// Whether the verdict on these events agrees with the plain judge's, and so does a checker that gets them one by one.
fn is_agreed(
    alloc: Global,
    profile: Profile,
    events: &[Placed],
    verdict: &Verdict,
) -> Result<bool, AllocError> {
    let plain = judge_events(alloc, profile, events)?;
    match verdict_by_events(alloc, profile, events)? {
        Some(other) => Ok(
            is_plain(alloc, profile, events, verdict, plain)?
                && is_plain(alloc, profile, events, &other, plain)?,
        ),
        None => Ok(false),
    }
}

/// Whether the check refuses the bytes with this fault.
fn is_refused(
    alloc: Global,
    profile: Profile,
    bytes: &[u8],
    fault: Fault,
) -> Result<bool, InputFault> {
    match check_bytes(alloc, profile, bytes) {
        Ok(_) => Ok(false),
        Err(InputFault::Grammar(other)) => Ok(other == fault),
        Err(other) => Err(other),
    }
}

/// Whether the check gives the plain judge's verdict on the bytes, or their fault.
pub fn is_judged_alike(alloc: Global, profile: Profile, bytes: &[u8]) -> Result<bool, InputFault> {
    match read_all(alloc, &mut SliceSource::new(bytes, 4096, None)) {
        Ok(events) => {
            let verdict = check_bytes(alloc, profile, bytes)?;
            Ok(is_agreed(alloc, profile, &events, &verdict)?)
        }
        Err(InputFault::Grammar(fault)) => is_refused(alloc, profile, bytes, fault),
        Err(fault) => Err(fault),
    }
}

/// The document up to an offset, and an end.
fn cut(alloc: Global, bytes: &[u8], place: usize) -> Result<Vec<u8>, AllocError> {
    let mut text = Vec::from_slice(alloc, bytes.get(..place).unwrap_or(&[]))?;
    text.extend_from_slice(b"\x1b\\")?;
    Ok(text)
}

/// The document with another byte at an offset.
fn changed(alloc: Global, bytes: &[u8], place: usize, byte: u8) -> Result<Vec<u8>, AllocError> {
    let mut text = Vec::from_slice(alloc, bytes)?;
    if place < text.len() {
        text[place] = byte;
    }
    Ok(text)
}

/// Whether both judges agree on the documents with another byte at this offset, and on the one that is cut off there.
fn is_alike_at(
    alloc: Global,
    profile: Profile,
    bytes: &[u8],
    place: usize,
) -> Result<bool, InputFault> {
    for byte in BYTES {
        let text = changed(alloc, bytes, place, byte)?;
        if !is_judged_alike(alloc, profile, text.as_slice())? {
            return Ok(false);
        }
    }
    let text = cut(alloc, bytes, place)?;
    is_judged_alike(alloc, profile, text.as_slice())
}

/// Whether both judges agree on the neighbours of a document: cut off anywhere, or with one byte replaced. It is always
/// true for a document with more than `MOST_SWEPT` bytes.
pub fn are_neighbours_alike(
    alloc: Global,
    profile: Profile,
    bytes: &[u8],
) -> Result<bool, InputFault> {
    if bytes.len() <= MOST_SWEPT {
        for place in 0..bytes.len() {
            if !is_alike_at(alloc, profile, bytes, place)? {
                return Ok(false);
            }
        }
    }
    Ok(true)
}

/// Counts over made documents.
#[derive(Drop)]
pub struct Tally {
    /// Those on which the judges disagree.
    pub wrong: u32,
    pub portable: u32,
    /// Whether each rule was broken at an event after the start.
    met: [bool; RULE_COUNT],
}

impl Tally {
    /// Whether each rule was broken, and more than four documents are portable.
    pub fn has_all(&self) -> bool {
        self.met.iter().all(|met| *met) && self.portable > 4
    }

    /// Counts a document.
    fn count(&mut self, plain: PlainVerdict, alike: bool) {
        match plain {
            PlainVerdict::Portable { .. } => self.portable = self.portable.saturating_add(1),
            PlainVerdict::Broken(finding) => {
                for (met, rule) in self.met.iter_mut().zip(ALL_RULES) {
                    *met = *met || finding.rule == rule && finding.place > 0;
                }
            }
        }
        if !alike {
            self.wrong = self.wrong.saturating_add(1);
        }
    }
}

/// Whether the check's verdict on the bytes of a made document agrees with the plain judge's on its events.
fn is_made_alike(
    alloc: Global,
    profile: Profile,
    made: &Made,
    plain: PlainVerdict,
) -> Result<bool, InputFault> {
    let verdict = check_bytes(alloc, profile, &made.bytes)?;
    Ok(is_plain(alloc, profile, &made.events, &verdict, plain)?)
}

/// Counts over a thousand made documents.
pub fn make_tally(alloc: Global, profile: Profile) -> Result<Tally, InputFault> {
    let mut tally = Tally {
        wrong: 0,
        portable: 0,
        met: [false; RULE_COUNT],
    };
    let mut documents = Documents::new(1);
    for _ in 0..1000u32 {
        let made = documents.next_document(alloc)?;
        let plain = judge_events(alloc, profile, &made.events)?;
        let alike = is_made_alike(alloc, profile, &made, plain)?;
        tally.count(plain, alike);
    }
    Ok(tally)
}
