//! Scans: when the line of a string is written, and what is written if a device fails.

use crate::runs::{Limits, run_counted};
use sixel_model::Profile;
use sixel_report::{RunFault, Status, Task};

/// Without 8-bit controls.
const SCAN: Task = Task::Scan {
    profile: Profile::Registers16,
    eight_bit: false,
};

/// A portable string at offset 2, and a broken one at offset 30. They end at offsets 28 and 56.
const TWO: &[u8] = b"ab\x1bPq\"1;1;1;1#0;2;0;0;0#0@\x1b\\cd\x1bPq\"1;1;2;1#0;2;0;0;0#0@\x1b\\";

/// The lines of both, of 15 and 27 bytes.
const LINES: &[u8] = b"2 portable 1 1\n30 broken Uncovered 54 1 0\n";

/// Each line is written, in one take, before the source is asked for more. The last fill gives the end.
#[test]
fn lines_are_written_when_strings_end(rt: HostRuntime) {
    for fill in 0..=57 {
        let limits = Limits {
            piece: 1,
            fill_fails: Some(fill),
            most: 64,
            take_fails: None,
        };
        let mut room = [0; 64];
        let ran = run_counted(rt.alloc(), SCAN, TWO, limits, &mut room);
        let (answer, takes, written) = match fill {
            0..=27 => (Err(RunFault::Read), 0, 0),
            28..=55 => (Err(RunFault::Read), 1, 15),
            56 => (Err(RunFault::Read), 2, 42),
            _ => (Ok(Status::Unfit { wrapped: false }), 2, 42),
        };
        assert!(rt; ran.answer == answer, "{fill}");
        assert!(rt; room.get(..ran.written) == LINES.get(..written), "{fill}");
        assert!(rt; ran.sink.takes == takes && ran.sink.flushes == 1, "{fill}");
    }
}

/// After a failed write, no more is read.
#[test]
fn a_failed_write_ends_the_scan(rt: HostRuntime) {
    for take in 0..42 {
        let limits = Limits {
            piece: 1,
            fill_fails: None,
            most: 1,
            take_fails: Some(take),
        };
        let mut room = [0; 64];
        let ran = run_counted(rt.alloc(), SCAN, TWO, limits, &mut room);
        assert!(rt; ran.answer == Err(RunFault::Write), "{take}");
        let lines = LINES.get(..take as usize);
        assert!(rt; room.get(..ran.written) == lines, "{take}");
        let fills = if take < 15 { 28 } else { 56 };
        assert!(rt; ran.source.fills == fills, "{take}");
        assert!(rt; ran.sink.flushes == 0, "{take}");
    }
}
