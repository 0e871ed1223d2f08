//! PPM files: sources that fail, a refused growth, and blocks.

use crate::pictures::{RED_AND_BLUE, made};
use sixel_io::{SliceSink, SliceSource};
use sixel_model::{Picture, Profile};
use sixel_ppm::{PpmFault, PpmReason, read_ppm, write_ppm};
use sixel_test_devices::{CountingDevice, filled};
use std::alloc::Global;
use std::test::Fail;

/// Five red pixels side by side.
const RED: &[u8] = b"P6 5 1 100\n\x64\x00\x00\x64\x00\x00\x64\x00\x00\x64\x00\x00\x64\x00\x00";

/// Reads the bytes in pieces, with a fill that fails or none; and how often the source was called.
fn read(
    alloc: Global,
    bytes: &[u8],
    piece: usize,
    fail_at: Option<u64>,
) -> (Result<Picture, PpmFault>, u64) {
    let mut source = CountingDevice::new(SliceSource::new(bytes, piece.max(1), fail_at));
    let picture = read_ppm(alloc, Profile::Registers16, &mut source);
    (picture, source.calls.fills)
}

/// The fills give the bytes, and the last one finds the end; each fails in turn, and the source is left alone then.
#[test]
fn each_fill_fails_in_turn(rt: HostRuntime) {
    for (piece, fills) in [(1, 27), (4, 8), (25, 3), (26, 2)] {
        for fill in 0..fills {
            let (picture, calls) = read(rt.alloc(), RED, piece, Some(fill));
            assert!(rt;
                picture.err() == Some(PpmFault::Read) && calls == fill + 1,
                "{fill}"
            );
        }
        let (picture, calls) = read(rt.alloc(), RED, piece, Some(fills));
        assert!(rt; picture.is_ok() && calls == fills, "{piece}");
    }
}

/// `rt try --test --fail-alloc 1` makes the only allocation of the first reading fail. A bad header comes before it.
#[test]
fn a_refused_growth_is_out_of_memory(rt: HostRuntime) {
    let (bad, _) = read(rt.alloc(), b"P6 0 1 100\n", 65_536, None);
    let (reason, place) = (PpmReason::Size, 3);
    assert!(rt; bad.err() == Some(PpmFault::Format { reason, place }));
    let (first, _) = read(rt.alloc(), RED, 65_536, None);
    let (second, _) = read(rt.alloc(), RED, 65_536, None);
    let (first, second) = (first.err(), second.err());
    assert!(rt; first.is_none() || second.is_none());
    for fault in [first, second] {
        assert!(rt; fault.is_none() || fault == Some(PpmFault::OutOfMemory));
    }
}

/// A block of 65,536 bytes takes the 15 bytes of the header, and 21,840 pixels: three blocks for 180,015 bytes.
#[test]
fn large_pictures_leave_in_blocks(rt: HostRuntime) -> Result<(), Fail> {
    let registers = vec![in rt.alloc(); 3; 300 * 200]?;
    let profile = Profile::Registers16;
    let made = made(
        rt.alloc(),
        profile,
        (300, 200),
        RED_AND_BLUE,
        registers.as_slice(),
    )?;
    let picture = made.or(Err("a picture"))?;
    let text = filled(rt.alloc(), b"P6\n300 200\n100\n", &[0, 0, 100], 60_000, b"")?;
    let mut room = vec![in rt.alloc(); 0; 200_000]?;
    for (fail_at, takes, length) in [(None, 3, 180_015), (Some(1), 2, 65_535)] {
        let mut sink = CountingDevice::new(SliceSink::new(&mut room, 100_000, fail_at));
        let answer = write_ppm(&picture, &mut sink);
        assert!(rt; answer.is_ok() == fail_at.is_none() && sink.calls.takes == takes);
        assert!(rt;
            text.get(..length) == Some(sink.device.written()),
            "{length}"
        );
    }
    Ok(())
}
