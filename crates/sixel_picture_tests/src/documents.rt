//! Documents that are read whole, and what a reader takes at once.

use sixel_grammar::{
    Columns, Command, Event, Fault, InputFault, Placed, Reader, Reason, Run, TwoCommands, read_all,
    write_event,
};
use sixel_io::{SliceSink, SliceSource};
use sixel_test_devices::{CountingDevice, filled};
use std::alloc::Global;
use std::test::Fail;

/// One black pixel, in the fixed spelling.
const PICTURE: &[u8] = b"\x1bP0q\"1;1;1;1#0;2;0;0;0#0@\x1b\\";

/// CAN at offset 13, in the middle of 27 bytes.
const FAULTY: &[u8] = b"\x1bP0q\"1;1;1;1#\x18;2;0;0;0#0@\x1b\\";

/// Whether the events have this text in their fixed spelling.
fn are_written(events: &[Placed], text: &[u8]) -> bool {
    let mut room = [0; 64];
    let mut sink = SliceSink::new(&mut room, 7, None);
    for placed in events {
        if !placed.event.is_spellable() || write_event(&placed.event, &mut sink).is_err() {
            return false;
        }
    }
    sink.written() == text
}

/// Whether reading the bytes in pieces, with a fill that fails or none, calls the source so often, and gives events with
/// this text or this fault.
fn reads(
    alloc: Global,
    bytes: &[u8],
    piece: usize,
    fail_at: Option<u64>,
    expected: Result<&[u8], InputFault>,
    fills: u64,
) -> bool {
    let mut source = CountingDevice::new(SliceSource::new(bytes, piece.max(1), fail_at));
    let is_expected = match (read_all(alloc, &mut source), expected) {
        (Ok(events), Ok(text)) => are_written(events.as_slice(), text),
        (Err(found), Err(fault)) => found == fault,
        _ => false,
    };
    is_expected && source.calls.fills == fills
}

/// Numbers lose leading zeros, and missing ones are 0.
#[test]
fn events_are_written_in_their_fixed_spelling(rt: HostRuntime) {
    for (bytes, text) in [
        (
            b"\x1bP0;1q\"1;1;2048;7#7;1;360;50;0#15?~!5@$-\x1b\\".as_slice(),
            b"\x1bP0;1q\"1;1;2048;7#7;1;360;50;0#15?~!5@$-\x1b\\".as_slice(),
        ),
        (b"\x9065535;65535;65535q\x9c", b"\x9065535;65535;65535q\x9c"),
        (
            b" \x1bPq #;;;;\n!~!05~\"#\x1b\\\n",
            b"\x1bP0q#0;0;0;0;0!0~!5~\"0;0;0;0#0\x1b\\",
        ),
    ] {
        assert!(rt;
            reads(rt.alloc(), bytes, 100, None, Ok(text), 2),
            "{bytes:?}"
        );
    }
    assert!(rt; !Event::Step(Command::Sixel(64)).is_spellable());
}

/// The fills give the bytes, and the last one finds the end; each fails in turn.
#[test]
fn each_fill_fails_in_turn(rt: HostRuntime) {
    for (piece, fills) in [(1, 28), (5, 7), (64, 2)] {
        for fill in 0..fills {
            let failed = Err(InputFault::Read);
            let is_failed = reads(rt.alloc(), PICTURE, piece, Some(fill), failed, fill + 1);
            assert!(rt; is_failed, "fill {fill} in pieces of {piece}");
        }
    }
}

/// A source is left alone after its end and after a fault: the next fill would fail.
#[test]
fn no_fill_comes_after_the_last(rt: HostRuntime) {
    let bad_byte = Err(InputFault::Grammar(Fault {
        reason: Reason::BadByte,
        place: 13,
    }));
    let truncated = Err(InputFault::Grammar(Fault {
        reason: Reason::Truncated,
        place: 25,
    }));
    for (bytes, piece, expected, fills) in [
        (PICTURE, 1, Ok(PICTURE), 28),
        (PICTURE, 5, Ok(PICTURE), 7),
        (PICTURE, 64, Ok(PICTURE), 2),
        (FAULTY, 1, bad_byte, 14),
        (FAULTY, 5, bad_byte, 3),
        (FAULTY, 13, bad_byte, 2),
        (FAULTY, 14, bad_byte, 1),
        (&PICTURE[..25], 1, truncated, 26),
        (&PICTURE[..25], 24, truncated, 3),
        (&PICTURE[..25], 25, truncated, 2),
    ] {
        let is_read = reads(rt.alloc(), bytes, piece, Some(fills), expected, fills);
        assert!(rt; is_read, "{expected:?} in pieces of {piece}");
    }
}

/// A start, 200,000 sixels and a finish.
#[test]
fn a_long_list_is_read(rt: HostRuntime) -> Result<(), Fail> {
    let bytes = filled(rt.alloc(), b"\x90q", b"~", 200_000, b"\x9c")?;
    let events = read_all(rt.alloc(), &mut SliceSource::new(&bytes, 65_536, None));
    assert!(rt; events.or(Err("a document"))?.len() == 200_002);
    Ok(())
}

/// A reader that has read these bytes; `None` if it refuses one.
fn reader_after(bytes: &[u8]) -> Option<Reader> {
    let mut reader = Reader::new();
    for byte in bytes {
        reader.feed(*byte).ok()?;
    }
    Some(reader)
}

fn run(place: u64, select: Option<u16>, start: usize, length: usize, columns: Columns) -> Run {
    Run {
        place,
        select,
        start,
        length,
        columns,
    }
}

/// Columns that are read at once, perhaps after a select, or a select that stays open; what ends in the piece, or begins
/// while a command is open, is left to `feed`.
#[test]
fn runs_are_read_at_once(rt: HostRuntime) -> Result<(), Fail> {
    let (count, bits) = (12, 63);
    let repeat = Columns::Repeat { count, bits };
    for (prefix, piece, expected) in [
        (
            b"\x1bPq".as_slice(),
            b"?~@$".as_slice(),
            Some(run(3, None, 0, 3, Columns::Sixels)),
        ),
        (
            b"\x1bPq",
            b"#12~~$",
            Some(run(3, Some(12), 3, 5, Columns::Sixels)),
        ),
        (
            b"\x1bPq~",
            b"#~",
            Some(run(4, Some(0), 1, 2, Columns::Sixels)),
        ),
        (b"\x1bPq", b"!12~~", Some(run(3, None, 0, 4, repeat))),
        (b"\x1bPq", b"#3!0012~", Some(run(3, Some(3), 2, 8, repeat))),
        (
            b"\x1bPq",
            b"#12$",
            Some(run(3, None, 0, 3, Columns::Missing)),
        ),
        (
            b"\x1bPq",
            b"#1!2$",
            Some(run(3, None, 0, 2, Columns::Missing)),
        ),
        (
            b"\x1bPq",
            b"#0012;~",
            Some(run(3, None, 0, 5, Columns::Missing)),
        ),
        (
            b"\x1bPq",
            b"#65536~",
            Some(run(3, None, 0, 5, Columns::Missing)),
        ),
        (b"\x1bPq", b"!12", None),
        (b"\x1bPq", b"\n~", None),
        (b"\x1bPq#1", b"~~", None),
        (b"\x1bPq\x1b\\", b"~~", None),
    ] {
        let mut reader = reader_after(prefix).ok_or("a reader")?;
        assert!(rt;
            reader.feed_run(piece) == expected,
            "{piece:?} after {prefix:?}"
        );
    }
    Ok(())
}

/// A byte that ends a select and is a command itself; not one that is part of the select, a repeat or the end.
#[test]
fn two_commands_are_read_at_once(rt: HostRuntime) -> Result<(), Fail> {
    let mut reader = reader_after(b"\x1bPq#1").ok_or("a select")?;
    for byte in b" !2\x9c" {
        assert!(rt; reader.feed_two(*byte).is_none(), "{byte}");
    }
    let two = TwoCommands {
        place: 3,
        ended: Command::Select(1),
        own_place: 5,
        own: Command::CarriageReturn,
    };
    assert!(rt; reader.feed_two(b'$') == Some(two));
    assert!(rt; reader.feed_two(b'$').is_none());
    Ok(())
}
