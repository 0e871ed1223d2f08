//! How often a check calls its source.

use sixel_check::{Finding, Outcome, Rule, Verdict, check, outcome_with};
use sixel_grammar::{Fault, InputFault, Reason};
use sixel_io::{PIECE, SliceSource};
use sixel_model::Profile;
use sixel_test_devices::{CountingDevice, filled};
use std::alloc::Global;
use std::test::Fail;

type Answer = Result<Outcome, InputFault>;

/// The answer without the picture.
fn outcome_of(answer: Result<Verdict, InputFault>) -> Answer {
    match answer {
        Ok(Verdict::Portable(picture)) => Ok(Outcome::Portable {
            width: picture.width(),
            height: picture.height(),
        }),
        Ok(Verdict::Broken(finding)) => Ok(Outcome::Broken(finding)),
        Err(fault) => Err(fault),
    }
}

/// Whether checks of the bytes in pieces, with a picture and without, have this answer after so many fills, of which one
/// or none fails.
fn agrees_after(
    alloc: Global,
    bytes: &[u8],
    piece: usize,
    fail_at: Option<u64>,
    expected: Answer,
    fills: u64,
) -> bool {
    let profile = Profile::Registers16;
    let mut source = CountingDevice::new(SliceSource::new(bytes, piece.max(1), fail_at));
    let answer = outcome_of(check(alloc, profile, &mut source));
    let mut again = CountingDevice::new(SliceSource::new(bytes, piece.max(1), fail_at));
    let brief = outcome_with(alloc, profile, &mut again, &mut [0u8; PIECE]);
    answer == expected
        && brief == expected
        && source.calls.fills == fills
        && again.calls.fills == fills
}

/// The smallest portable picture, 26 bytes.
const PICTURE: &[u8] = b"\x1bPq\"1;1;1;1#0;2;0;0;0#0@\x1b\\";

const PORTABLE: Answer = Ok(Outcome::Portable {
    width: 1,
    height: 1,
});

/// A return before raster attributes, 27 bytes.
const BROKEN: &[u8] = b"\x1bPq$\"1;1;1;1#0;2;0;0;0#0@\x1b\\";

const RASTER_LATE: Answer = Ok(Outcome::Broken(Finding {
    rule: Rule::RasterFirst,
    place: 3,
    pixel: None,
}));

/// CAN at offset 12, in the middle of 26 bytes.
const FAULTY: &[u8] = b"\x1bPq\"1;1;1;1#\x18;2;0;0;0#0@\x1b\\";

fn refused(reason: Reason, place: u64) -> Answer {
    Err(InputFault::Grammar(Fault { reason, place }))
}

/// All but one of the fills give the bytes, and the last finds the end, also behind a broken rule: only a whole document
/// has a verdict. But the piece with a fault is the last one that is read; the next fill, which may fail, isn't made.
#[test]
fn one_fill_finds_the_end(rt: HostRuntime) {
    let truncated = refused(Reason::Truncated, 25);
    let bad = refused(Reason::BadByte, 12);
    let rows: [(&[u8], usize, Option<u64>, Answer, u64); 14] = [
        (PICTURE, 1, None, PORTABLE, 27),
        (PICTURE, 5, None, PORTABLE, 7),
        (PICTURE, 26, None, PORTABLE, 2),
        (PICTURE, 64, None, PORTABLE, 2),
        (&PICTURE[..25], 5, None, truncated, 6),
        (&PICTURE[..25], 64, None, truncated, 2),
        (&[], 5, None, refused(Reason::Truncated, 0), 1),
        (BROKEN, 1, None, RASTER_LATE, 28),
        (BROKEN, 9, None, RASTER_LATE, 4),
        (BROKEN, 64, None, RASTER_LATE, 2),
        (FAULTY, 1, None, bad, 13),
        (FAULTY, 5, Some(3), bad, 3),
        (FAULTY, 12, None, bad, 2),
        (FAULTY, 13, None, bad, 1),
    ];
    for (bytes, piece, fail_at, expected, fills) in rows {
        assert!(rt;
            agrees_after(rt.alloc(), bytes, piece, fail_at, expected, fills),
            "{bytes:?} in pieces of {piece}"
        );
    }
}

/// Each of the fills fails in turn, and is the last one. The one after them is never made.
#[test]
fn a_source_is_left_alone_after_its_failure(rt: HostRuntime) {
    for (piece, fills) in [(1, 27u64), (5, 7), (64, 2)] {
        for fill in 0..fills {
            let failed = Err(InputFault::Read);
            let last = fill.saturating_add(1);
            assert!(rt;
                agrees_after(rt.alloc(), PICTURE, piece, Some(fill), failed, last),
                "fill {fill} in pieces of {piece}"
            );
        }
        assert!(rt;
            agrees_after(rt.alloc(), PICTURE, piece, Some(fills), PORTABLE, fills),
            "in pieces of {piece}"
        );
    }
}

/// A check asks for 65,536 bytes at once. CAN as the last of these is found before the next fill, which would fail.
#[test]
fn a_fill_has_room_for_many_bytes(rt: HostRuntime) -> Result<(), Fail> {
    let read = Err(InputFault::Read);
    for (sixels, fail_at, expected, fills) in [
        (65_532, Some(1), refused(Reason::BadByte, 65_535), 1),
        (65_533, Some(1), read, 2),
        (65_533, None, refused(Reason::BadByte, 65_536), 2),
    ] {
        let bytes = filled(rt.alloc(), b"\x1bPq", b"~", sixels, b"\x18")?;
        assert!(rt;
            agrees_after(rt.alloc(), &bytes, 100_000, fail_at, expected, fills),
            "{sixels} sixels"
        );
    }
    Ok(())
}
