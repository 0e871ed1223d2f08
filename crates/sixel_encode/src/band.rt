//! Writes a band: six rows of a picture, or fewer in the last band.

ghost use Rattle.std.specs.Prelude.{◌≡◌, ◌==◌, ◌+◌, ◌-◌, ◌%◌, ◌<◌, ◌≤◌, ◌++◌, ◌∷◌, [], if◌then◌else◌, length};
ghost use Rattle.std.specs.Prelude.{take, true};
ghost use Rattle.sixel_io.specs.Blocks.{WritesThrough};
ghost use Rattle.sixel_grammar.specs.Spelling.{IsSpellable};
ghost use Rattle.sixel_model.specs.Pictures.{most_side};
ghost use Rattle.sixel_encode.specs.Canon.{band_commands, commands_text, most_bands};
ghost use Rattle.sixel_encode.specs.Columns.{AreColumns, AreSixels, sixel_commands};
ghost use Rattle.sixel_encode.specs.Gaps.{AreGapEnds};

use crate::columns::find_sixels;
use crate::commands::{Text, put_command};
use crate::gaps::Gaps;
use crate::groups::band_groups;
use crate::heads::Heads;
use crate::lanes::LANES;
use crate::line::{MOST_BYTES, TEXT_ROOM, put_part, put_repeat};
use crate::parts::put_by_parts;
use crate::repeats::{find_repeat, ink_end};
use crate::rows::rows_of;
use sixel_grammar::{Command, Event};
use sixel_io::{DeviceFault, Sink};
use sixel_model::Picture;

/// The columns of the widest picture, and two groups of blank ones. So a search by groups finds an end of all columns.
pub(crate) const ROOM: usize = MOST_BYTES;

/// Room for what is found out of the columns of a register: where their gaps end, and their text.
#[derive(Debug, Drop)]
pub(crate) struct Speller {
    gaps: Gaps,
    heads: Heads,
    text: [u8; TEXT_ROOM],
}

impl Speller {
    pub(crate) fn new() -> Speller {
        Speller {
            gaps: Gaps::new(),
            heads: Heads::new(),
            text: [0; TEXT_ROOM],
        }
    }

    /// Makes the text of the columns, and returns where it ends. Those whose group isn't in the mask are blank.
    fn spell(&mut self, sixels: &[u8], groups: u64) -> usize
        requires { AreColumns groups sixels.now }
        ensures text { take result self.new.text ≡ commands_text (sixel_commands sixels.now) }
        ensures short { result ≤ MOST_BYTES }
    {
        self.gaps.find(sixels, groups);
        spell_columns(&mut self.text, &self.heads, sixels, &self.gaps)
    }
}

/// Writes the registers of a band, each with its columns, with a carriage return between two. `sixels` is room for the
/// columns of a register.
pub(crate) fn put_band<K: Sink>(
    text: &mut Text,
    picture: &Picture,
    band: u32,
    sixels: &mut [u8],
    speller: &mut Speller,
    out: &mut K,
) -> Result<(), DeviceFault>
    requires band { band < most_bands }
    requires room { picture.now.width ≤ length sixels.old }
    requires few { length sixels.old ≤ ROOM }
    requires whole { length sixels.old % LANES ≡ 0 }
    ensures { WritesThrough result (K.state out.old) (K.state out.new) text.old text.new
        (commands_text (band_commands picture.now band)) }
{
    let groups = band_groups(picture, band);
    let (rows, width) = (rows_of(picture, band), picture.width() as usize);
    let mut is_first = true;
    for register in 0..picture.profile().count() {
        let own = groups[register as usize];
        if own != 0 {
            find_sixels(sixels, rows, width, register as u8, own);
            put_next(text, register as u8, sixels, own, speller, is_first, out)?;
            is_first = false;
        }
    }
    Ok(())
}

/// How many columns `width` of them and the blank ones behind them are: whole groups, of which the last is blank.
pub(crate) fn room_for(width: usize) -> usize
    requires { width ≤ most_side }
    ensures room { width + LANES < result }
    ensures most { result ≤ ROOM }
    ensures whole { result % LANES ≡ 0 }
{
    (width / LANES + 2) * LANES
}

/// Writes a register and its columns, after a carriage return unless it is the first.
fn put_next<K: Sink>(
    text: &mut Text,
    register: u8,
    sixels: &[u8],
    groups: u64,
    speller: &mut Speller,
    is_first: bool,
    out: &mut K,
) -> Result<(), DeviceFault>
    requires { AreColumns groups sixels.now }
    ensures { WritesThrough result (K.state out.old) (K.state out.new) text.old text.new
        (commands_text ((if is_first then [] else Command.CarriageReturn ∷ [])
        ++ (Command.Select register ∷ sixel_commands sixels.now))) }
{
    put_between(text, is_first, Command::CarriageReturn, out)?;
    put_register(text, register, sixels, groups, speller, out)
}

/// Writes the command as a separator: nothing before the first item.
pub(crate) fn put_between<K: Sink>(
    text: &mut Text,
    is_first: bool,
    command: Command,
    out: &mut K,
) -> Result<(), DeviceFault>
    requires { IsSpellable (Event.Step command) }
    ensures { WritesThrough result (K.state out.old) (K.state out.new) text.old text.new
        (commands_text (if is_first then [] else command ∷ [])) }
{
    if is_first {
        Ok(())
    } else {
        put_command(text, command, out)
    }
}

/// Writes a select, and the columns of the register.
fn put_register<K: Sink>(
    text: &mut Text,
    register: u8,
    sixels: &[u8],
    groups: u64,
    speller: &mut Speller,
    out: &mut K,
) -> Result<(), DeviceFault>
    requires { AreColumns groups sixels.now }
    ensures { WritesThrough result (K.state out.old) (K.state out.new) text.old text.new
        (commands_text (Command.Select register ∷ sixel_commands sixels.now)) }
{
    put_command(text, select(register), out)?;
    put_columns(text, sixels, groups, speller, out)
}

fn select(register: u8) -> Command
    ensures { result ≡ Command.Select register }
{
    Command::Select(register.into())
}

/// Writes the columns up to the last one with a set bit.
fn put_columns<K: Sink>(
    text: &mut Text,
    sixels: &[u8],
    groups: u64,
    speller: &mut Speller,
    out: &mut K,
) -> Result<(), DeviceFault>
    requires { AreColumns groups sixels.now }
    ensures { WritesThrough result (K.state out.old) (K.state out.new) text.old text.new
        (commands_text (sixel_commands sixels.now)) }
{
    let end = speller.spell(sixels, groups);
    let columns = &speller.text[..end];
    if text.try_put(columns) {
        return Ok(());
    }
    put_by_parts(text, columns, out)
}

/// Makes the text of the columns: four or more equal columns are a repeat, any others single sixels. Returns where it
/// ends.
fn spell_columns(text: &mut [u8], heads: &Heads, sixels: &[u8], gaps: &Gaps) -> usize
    requires sixels { AreSixels sixels.now }
    requires few { length sixels.now ≤ ROOM }
    requires ends { gaps.now.is_listed ≡ true
        → AreGapEnds (length sixels.now) sixels.now gaps.now.ends gaps.now.count }
    requires room { length text.old ≡ TEXT_ROOM }
    ensures text { take result text.new ≡ commands_text (sixel_commands sixels.now) }
    ensures short { result ≤ length sixels.now }
    ensures long { length text.new ≡ length text.old }
{
    let (mut from, mut next, mut at) = (0, 0, 0);
    while let Some(start) = find_repeat(sixels, from) {
        let (end, behind) = gaps.run_end(sixels, from, start, next);
        at = put_part(text, at, sixels, from, start);
        // Blank columns at the end are left out.
        if end == sixels.len() && sixels[start] == b'?' {
            return at;
        }
        at = put_repeat(text, at, heads, (end - start) as u16, sixels[start] - b'?');
        (from, next) = (end, behind);
    }
    put_part(text, at, sixels, from, ink_end(sixels, from))
}
