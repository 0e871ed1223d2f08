//! Texts that no PPM file has, and a sink that fails in mid-text.

use crate::pictures::{Entry, made};
use sixel_encode::{EncodeFault, encode};
use sixel_io::SliceSink;
use sixel_model::{Parts, Profile};
use std::alloc::{AllocError, Global};
use std::test::Fail;

/// Colours by hue, and entries without a pixel, which are defined too. Registers are painted in increasing order.
#[test]
fn pictures_have_their_texts(rt: HostRuntime) -> Result<(), Fail> {
    let (narrow, wide) = (Profile::Registers16, Profile::Registers256);
    let (black, red) = (Parts::Rgb(0, 0, 0), Parts::Rgb(100, 0, 0));
    for (profile, entries, registers, expected) in [
        (
            narrow,
            [(0, black), (3, Parts::Hls(120, 50, 100))].as_slice(),
            [0].as_slice(),
            "\x1bP0;1q\"1;1;1;1#0;2;0;0;0#3;1;120;50;100#0@\x1b\\",
        ),
        (
            narrow,
            [(0, Parts::Hls(360, 50, 100))].as_slice(),
            [0].as_slice(),
            "\x1bP0;1q\"1;1;1;1#0;1;360;50;100#0@\x1b\\",
        ),
        (
            wide,
            [(9, black), (100, red), (200, black), (255, black)].as_slice(),
            [255, 9, 100].as_slice(),
            "\x1bP0;1q\"1;1;3;1#9;2;0;0;0#100;2;100;0;0#200;2;0;0;0#255;2;0;0;0#9?@$#100??@$#255@\x1b\\",
        ),
    ] {
        let size = (registers.len().min(3) as u32, 1);
        let picture = made(rt.alloc(), profile, size, entries, registers)?.or(Err("a picture"))?;
        let mut room = [0; 100];
        let mut sink = SliceSink::new(&mut room, 7, None);
        assert!(rt; encode(&picture, &mut sink) == Ok(()), "{expected}");
        assert!(rt; sink.written() == expected.as_bytes(), "{expected}");
    }
    Ok(())
}

/// Each register of the narrow profile, in one colour.
fn all_entries(alloc: Global) -> Result<Vec<Entry>, AllocError> {
    let mut entries = Vec::new(alloc);
    for register in 0..16u8 {
        entries.push((register, Parts::Rgb(10, 20, 30)))?;
    }
    Ok(entries)
}

/// The registers of 2,048 rows of 2,048 pixels. Sixteen take turns in each row.
fn registers_by_turns(alloc: Global) -> Result<Vec<u8>, AllocError> {
    let mut registers = Vec::with_capacity(alloc, 4_194_304)?;
    for index in 0..4_194_304u32 {
        registers.push((index % 16) as u8)?;
    }
    Ok(registers)
}

/// A take has as many whole parts as 65,536 bytes hold, and a failed one leaves those of the takes before it. A part is a
/// command, but single sixels before a repeat, or the last ones, are one part. The lengths are those of an encoder in
/// Python.
#[test]
fn a_failed_take_leaves_whole_parts(rt: HostRuntime) -> Result<(), Fail> {
    let profile = Profile::Registers16;
    let entries = all_entries(rt.alloc())?;
    let registers = registers_by_turns(rt.alloc())?;
    let made = made(rt.alloc(), profile, (2_048, 2_048), &entries, &registers)?;
    let picture = made.or(Err("a picture"))?;
    let mut room = vec![in rt.alloc(); 0; 300_000]?;
    for (take, length) in [
        (0, 0),
        (1, 65_536),
        (2, 131_071),
        (3, 196_604),
        (4, 262_138),
    ] {
        let mut sink = SliceSink::new(&mut room, 100_000, Some(take));
        assert!(rt;
            encode(&picture, &mut sink) == Err(EncodeFault::Write),
            "{take}"
        );
        assert!(rt; sink.written().len() == length, "{take}");
    }
    Ok(())
}
