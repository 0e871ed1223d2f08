//! Writes the canonical text of a picture.

ghost use Rattle.std.specs.Prelude.{◌≡◌, ◌++◌, ◌∷◌, [], ◌==◌, ◌%◌, ◌<◌, ◌≤◌, OnOk, false, length, if◌then◌else◌};
ghost use Rattle.std.specs.Option.{option_map, option_to_list};
ghost use Rattle.sixel_io.specs.Blocks.{WritesThrough};
ghost use Rattle.sixel_io.specs.Devices.{Writes};
ghost use Rattle.sixel_model.specs.Colours.{palette_at};
ghost use Rattle.sixel_encode.specs.Canon.{band_commands, canon_commands, canon_start, canon_text, commands_text};
ghost use Rattle.sixel_encode.specs.Canon.{define_command, define_commands, opening_commands, picture_commands};
ghost use Rattle.sixel_encode.specs.Canon.{most_bands};

use crate::band::{ROOM, Speller, put_band, put_between, room_for};
use crate::commands::{Text, put_command};
use arrayvec::ArrayVec;
use sixel_grammar::{Command, Event, put_event};
use sixel_io::{DeviceFault, Sink};
use sixel_model::{BAND_ROWS, Palette, Parts, Picture};

/// Why a picture wasn't written to its end.
#[derive(Clone, Copy, Debug, PartialEq, Eq)]
pub enum EncodeFault {
    /// The sink failed. It took a prefix of the text.
    Write = 1,
}

/// Writes a picture as sixel text. Equal pictures have the same text, and it has all entries of the palette. Allocates
/// nothing and doesn't flush.
///
/// The text declares the size and the colours. Then it paints each band of six rows, register by register in increasing
/// order. Each pixel is painted once, in its own register.
pub fn encode<K: Sink>(picture: &Picture, out: &mut K) -> Result<(), EncodeFault>
    ensures written { Writes result (K.state out.old) (K.state out.new) (canon_text picture.now) }
    ensures held { OnOk result ((K.state out.new).is_flushed ≡ false) }
{
    write_picture(picture, out).map_err(|_| EncodeFault::Write)
}

fn write_picture<K: Sink>(picture: &Picture, out: &mut K) -> Result<(), DeviceFault>
    ensures written { Writes result (K.state out.old) (K.state out.new) (canon_text picture.now) }
    ensures held { OnOk result ((K.state out.new).is_flushed ≡ false) }
{
    let mut text = Text::new();
    put_text(&mut text, picture, out)?;
    text.drain(out)
}

fn put_text<K: Sink>(text: &mut Text, picture: &Picture, out: &mut K) -> Result<(), DeviceFault>
    ensures put { WritesThrough result (K.state out.old) (K.state out.new) text.old text.new
        (canon_text picture.now) }
    ensures waits { OnOk result (0 < length text.new) }
{
    put_event(text, &start(), out)?;
    put_commands(text, picture, out)?;
    put_event(text, &Event::Finish { eight: false }, out)
}

fn put_commands<K: Sink>(text: &mut Text, picture: &Picture, out: &mut K) -> Result<(), DeviceFault>
    ensures { WritesThrough result (K.state out.old) (K.state out.new) text.old text.new
        (commands_text (canon_commands picture.now)) }
{
    put_opening(text, picture, out)?;
    put_bands(text, picture, out)
}

/// Writes the raster attributes and the definitions.
fn put_opening<K: Sink>(text: &mut Text, picture: &Picture, out: &mut K) -> Result<(), DeviceFault>
    ensures { WritesThrough result (K.state out.old) (K.state out.new) text.old text.new
        (commands_text (opening_commands picture.now)) }
{
    put_command(text, raster(picture), out)?;
    put_definitions(text, picture, out)
}

fn start() -> Event
    ensures { result ≡ canon_start }
{
    let mut parameters = ArrayVec::new();
    parameters.push(0);
    parameters.push(1);
    Event::Start {
        eight: false,
        parameters,
    }
}

fn raster(picture: &Picture) -> Command
    ensures { result ≡ Command.Raster 1 1 picture.now.width picture.now.height }
{
    Command::Raster {
        pan: 1,
        pad: 1,
        width: picture.width() as u16,
        height: picture.height() as u16,
    }
}

/// Writes a definition for each entry of the palette.
fn put_definitions<K: Sink>(
    text: &mut Text,
    picture: &Picture,
    out: &mut K,
) -> Result<(), DeviceFault>
    ensures { WritesThrough result (K.state out.old) (K.state out.new) text.old text.new
        (commands_text (define_commands picture.now.palette)) }
{
    let palette = picture.palette();
    for register in 0..palette.profile().count() {
        put_definition(text, palette, register as u8, out)?;
    }
    Ok(())
}

fn put_definition<K: Sink>(
    text: &mut Text,
    palette: &Palette,
    register: u8,
    out: &mut K,
) -> Result<(), DeviceFault>
    ensures { WritesThrough result (K.state out.old) (K.state out.new) text.old text.new
        (commands_text (option_to_list (option_map (define_command register) (palette_at palette.now register)))) }
{
    match palette.get(register) {
        Some(colour) => put_command(text, define(register, colour.parts()), out),
        None => Ok(()),
    }
}

fn define(register: u8, parts: Parts) -> Command
    ensures { result ≡ define_command register parts }
{
    let register = register.into();
    match parts {
        Parts::Rgb(red, green, blue) => Command::Define {
            register,
            system: 2,
            x: red.into(),
            y: green.into(),
            z: blue.into(),
        },
        Parts::Hls(hue, lightness, saturation) => Command::Define {
            register,
            system: 1,
            x: hue,
            y: lightness.into(),
            z: saturation.into(),
        },
    }
}

/// Writes the bands of a picture, with a new line between two.
fn put_bands<K: Sink>(text: &mut Text, picture: &Picture, out: &mut K) -> Result<(), DeviceFault>
    ensures { WritesThrough result (K.state out.old) (K.state out.new) text.old text.new
        (commands_text (picture_commands picture.now)) }
{
    let mut room = [0; ROOM];
    let end = room_for(picture.width() as usize);
    put_each_band(text, picture, &mut room[..end], &mut Speller::new(), out)
}

/// The same, with room for the columns of a register and for what is found out of them.
fn put_each_band<K: Sink>(
    text: &mut Text,
    picture: &Picture,
    sixels: &mut [u8],
    speller: &mut Speller,
    out: &mut K,
) -> Result<(), DeviceFault>
    requires room { picture.now.width ≤ length sixels.old }
    requires few { length sixels.old ≤ ROOM }
    requires whole { length sixels.old % 32 ≡ 0 }
    ensures { WritesThrough result (K.state out.old) (K.state out.new) text.old text.new
        (commands_text (picture_commands picture.now)) }
{
    for band in 0..picture.height().div_ceil(BAND_ROWS) {
        put_next_band(text, picture, band, sixels, speller, out)?;
    }
    Ok(())
}

/// Writes a band, after a new line unless it is the first.
fn put_next_band<K: Sink>(
    text: &mut Text,
    picture: &Picture,
    band: u32,
    sixels: &mut [u8],
    speller: &mut Speller,
    out: &mut K,
) -> Result<(), DeviceFault>
    requires band { band < most_bands }
    requires room { picture.now.width ≤ length sixels.old }
    requires few { length sixels.old ≤ ROOM }
    requires whole { length sixels.old % 32 ≡ 0 }
    ensures { WritesThrough result (K.state out.old) (K.state out.new) text.old text.new
        (commands_text ((if band == 0 then [] else Command.NextLine ∷ []) ++ band_commands picture.now band)) }
{
    put_between(text, band == 0, Command::NextLine, out)?;
    put_band(text, picture, band, sixels, speller, out)
}
