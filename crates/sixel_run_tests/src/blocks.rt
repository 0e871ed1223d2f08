//! What one take of a list has.

use crate::runs::{Limits, run_counted};
use sixel_io::{Block, DeviceFault, Sink, SliceSink};
use sixel_report::Task;
use sixel_test_devices::filled;
use std::alloc::{AllocError, Global};
use std::test::Fail;

/// The list of a document that comes in one piece, as much as a sink has if this take fails. The sink has room for
/// 1,000,000 bytes.
fn listed(alloc: Global, bytes: &[u8], take_fails: Option<u64>) -> Result<Vec<u8>, Fail> {
    let mut room = vec![in alloc; 0u8; 1_000_000]?;
    let limits = Limits {
        piece: 65_536,
        fill_fails: None,
        most: 1_000_000,
        take_fails,
    };
    let ran = run_counted(alloc, Task::List, bytes, limits, &mut room);
    room.truncate(ran.written);
    Ok(room)
}

/// A line has 10 bytes and its offset, the first one 15. So 53,168 lines have 786,422 bytes, and the block has room for
/// ten more, but no line is so short.
#[test]
fn a_take_has_as_many_lines_as_its_block_holds(rt: HostRuntime) -> Result<(), Fail> {
    let bytes = filled(rt.alloc(), b"\x1bPq", b"~", 60_000, b"\x1b\\")?;
    assert!(rt; listed(rt.alloc(), &bytes, Some(0))?.is_empty());
    assert!(rt; listed(rt.alloc(), &bytes, Some(1))?.len() == 786_422);
    Ok(())
}

/// A document of about 65,000 bytes: 56,000 commands, most of them sixels, with selects, repeats and returns between.
fn commands(alloc: Global, seed: u64) -> Result<Vec<u8>, AllocError> {
    let mut bytes = Vec::from_slice(alloc, b"\x1bPq")?;
    let mut state = seed;
    for _ in 0..56_000 {
        state = state
            .wrapping_mul(6_364_136_223_846_793_005)
            .wrapping_add(1_442_695_040_888_963_407);
        match state >> 59 {
            0 => bytes.extend_from_slice(b"#12")?,
            1 => bytes.extend_from_slice(b"!34@")?,
            2 => bytes.push(b'$')?,
            _ => bytes.push(b'?'.wrapping_add((state >> 50 & 63) as u8))?,
        }
    }
    bytes.extend_from_slice(b"~\x1b\\")?;
    Ok(bytes)
}

/// Puts the lines one by one.
fn put_lines<K: Sink>(lines: &[u8], out: &mut K) -> Result<(), DeviceFault> {
    let mut block = Block::<786_432>::new();
    for line in lines.chunk_by(|byte, _| *byte != b'\n') {
        if line.len() <= 786_432 {
            block.put(line, out)?;
        }
    }
    block.drain(out)
}

/// The same as if each line was put by itself, whatever the lines are.
#[test]
fn a_take_has_whole_lines(rt: HostRuntime) -> Result<(), Fail> {
    for seed in 0..4 {
        let bytes = commands(rt.alloc(), seed)?;
        let lines = listed(rt.alloc(), &bytes, None)?;
        let mut room = vec![in rt.alloc(); 0u8; 1_000_000]?;
        let mut sink = SliceSink::new(&mut room, 1_000_000, Some(1));
        assert!(rt; put_lines(&lines, &mut sink).is_err());
        assert!(rt;
            listed(rt.alloc(), &bytes, Some(1))?.as_slice() == sink.written(),
            "{seed}"
        );
    }
    Ok(())
}
