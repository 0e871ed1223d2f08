//! Which topics words ask for.

ghost use Rattle.std.specs.Prelude.{◌≡◌, ◌∷◌, [], IfOk, codes, drop, map, option_map};
ghost use Rattle.std.specs.List.{list_any};
ghost use Rattle.std.specs.String.{string_bytes};
ghost use Rattle.sixel_explain.specs.Explanations.{IsNearest, all_called, edits, is_line, is_mark, last_name, line_of};
ghost use Rattle.sixel_explain.specs.Explanations.{listed_names, name_in, names_in, topic_name, topic_of_end, words_of};

use crate::explanations::{Topic, topic_named};
use sixel_grammar::Reason;
use std::alloc::{AllocError, Global};
use strsim::osa_distance;

/// The topics that these words ask for: names in any case of letters, or a line that contains one. `None`: a word is no
/// name, or the line has none.
pub fn topics_asked(alloc: Global, said: &[&str]) -> Result<Option<Vec<Topic>>, AllocError>
    ensures { IfOk result (λ topics. names_in (line_of (map (λ word. word.now) said.now))
        ≡ option_map (λ topics. map topic_name topics.items) topics) }
{
    let line = line_of(alloc, said)?;
    if is_line(line.as_str()) {
        topics_of_line(alloc, line.as_str())
    } else {
        topics_of_words(alloc, line.as_str())
    }
}

/// Whether a line ends like one without a name, or has a digit or a colon.
fn is_line(line: &str) -> bool
    ensures { is_line line.now ≡ result }
{
    topic_of_end(line).is_some() || has_mark(line.as_bytes())
}

fn has_mark(line: &[u8]) -> bool
    ensures { list_any is_mark line.now ≡ result }
{
    let mut has = false;
    for byte in line {
        has |= *byte >= b'0' && *byte <= b':';
    }
    has
}

/// The only topic of a line.
fn topics_of_line(alloc: Global, line: &str) -> Result<Option<Vec<Topic>>, AllocError>
    ensures { IfOk result (λ topics. option_map (λ name. name ∷ []) (name_in line.now)
        ≡ option_map (λ topics. map topic_name topics.items) topics) }
{
    match topic_of_line(alloc, line)? {
        Some(topic) => {
            let mut topics = Vec::new(alloc);
            topics.push(topic)?;
            Ok(Some(topics))
        }
        None => Ok(None),
    }
}

/// The topic that a line asks for.
fn topic_of_line(alloc: Global, line: &str) -> Result<Option<Topic>, AllocError>
    ensures { IfOk result (λ topic. name_in line.now ≡ option_map topic_name topic) }
{
    match topic_of_end(line) {
        Some(topic) => Ok(Some(topic)),
        None => last_topic(alloc, line),
    }
}

/// The topics whose names the words of a line are, if each is a name.
fn topics_of_words(alloc: Global, line: &str) -> Result<Option<Vec<Topic>>, AllocError>
    ensures { IfOk result (λ topics. all_called (drop 1 (words_of line.now))
        ≡ option_map (λ topics. map topic_name topics.items) topics) }
{
    let words = line.split(' ').collect::<Vec<&str>>(alloc)?;
    match words.as_slice().split_first() {
        Some((_, words)) => topics_named(alloc, words),
        None => Ok(Some(Vec::new(alloc))),
    }
}

fn topics_named(alloc: Global, words: &[&str]) -> Result<Option<Vec<Topic>>, AllocError>
    ensures { IfOk result (λ topics. all_called (map (λ word. word.now) words.now)
        ≡ option_map (λ topics. map topic_name topics.items) topics) }
{
    let mut topics = Vec::new(alloc);
    for word in words {
        match topic_named(word) {
            Some(topic) => topics.push(topic)?,
            None => return Ok(None),
        }
    }
    Ok(Some(topics))
}

/// The words as one line, in small letters and with a space before each word.
fn line_of(alloc: Global, said: &[&str]) -> Result<String, AllocError>
    ensures { IfOk result (λ line. string_bytes line ≡ line_of (map (λ word. word.now) said.now)) }
{
    let mut line = String::new(alloc);
    for word in said {
        line.push_str(" ")?;
        line.push_str(word)?;
    }
    line.make_ascii_lowercase();
    Ok(line)
}

/// The topic of a line that ends like one without a name.
fn topic_of_end(line: &str) -> Option<Topic>
    ensures { topic_of_end line.now ≡ result }
{
    let line = line.as_bytes();
    if line.ends_with(b" out of memory") {
        Some(Topic::OutOfMemory)
    } else if line.ends_with(b" read failed")
        || line.ends_with(b" no such file")
        || line.ends_with(b" permission denied")
        || line.ends_with(b" is a folder")
        || line.ends_with(b" name is not valid utf-8")
    {
        Some(Topic::Read)
    } else if line.ends_with(b" write failed") {
        Some(Topic::Write)
    } else if line.ends_with(b" the input is empty") {
        Some(Topic::Grammar(Reason::Truncated))
    } else {
        None
    }
}

/// The topic of the last word that is a name.
fn last_topic(alloc: Global, line: &str) -> Result<Option<Topic>, AllocError>
    ensures { IfOk result (λ topic.
        last_name (words_of line.now) ≡ option_map topic_name topic) }
{
    let words = line.split(' ').collect::<Vec<&str>>(alloc)?;
    Ok(last_named(words.as_slice()))
}

fn last_named(words: &[&str]) -> Option<Topic>
    ensures { last_name (map (λ word. word.now) words.now) ≡ option_map topic_name result }
{
    let mut last = None;
    for word in words {
        last = topic_named(word).or(last);
    }
    last
}

/// How many edits a misspelled name may need.
const MOST_EDITS: usize = 2;

/// The listed name that is most like this word, if one is.
pub fn nearest(alloc: Global, word: &str) -> Result<Option<&'static str>, AllocError>
    ensures { IfOk result (λ similar.
        IsNearest listed_names word.now (option_map (λ name. name.now) similar)) }
{
    nearest_of(alloc, &NAMES, word)
}

/// The name among these that is most like this word, if one is.
fn nearest_of(
    alloc: Global,
    names: &[&'static str],
    word: &str,
) -> Result<Option<&'static str>, AllocError>
    ensures { IfOk result (λ similar.
        IsNearest (map (λ name. name.now) names.now) word.now (option_map (λ name. name.now) similar)) }
{
    let mut nearest = None;
    let mut fewest = MOST_EDITS + 1;
    for name in names {
        let edits = edits(alloc, name, word)?;
        if edits < fewest {
            fewest = edits;
            nearest = Some(*name);
        }
    }
    Ok(nearest)
}

/// How many edits lead from one name to the other, in any case of letters.
fn edits(alloc: Global, name: &str, word: &str) -> Result<usize, AllocError>
    ensures { IfOk result (λ n. n ≡ edits name.now word.now) }
{
    let mut name = String::from_str(alloc, name)?;
    let mut word = String::from_str(alloc, word)?;
    name.make_ascii_lowercase();
    word.make_ascii_lowercase();
    osa_distance(alloc, name.as_str(), word.as_str())
}

/// The listed names.
const NAMES: [&str; 48] = [
    "RasterFirst",
    "RasterTwice",
    "Ratio",
    "BoxSize",
    "Register",
    "ColourValue",
    "RepeatZero",
    "Unselected",
    "Undefined",
    "Redefined",
    "Outside",
    "Uncovered",
    "EightBit",
    "RasterLate",
    "Dropped",
    "Stale",
    "Large",
    "Rows",
    "Past",
    "Hue",
    "Far",
    "Introducer",
    "Bare",
    "SpaceAfter",
    "NotSixel",
    "BadByte",
    "NumberTooLarge",
    "FieldCount",
    "BadRepeat",
    "BadTerminator",
    "Truncated",
    "TooLong",
    "Trailing",
    "Header",
    "Size",
    "Maxval",
    "Sample",
    "TooManyColours",
    "Short",
    "NotRgb",
    "NoBox",
    "Unmodelled",
    "NoString",
    "Empty",
    "TooLarge",
    "OutOfMemory",
    "Read",
    "Write",
];
