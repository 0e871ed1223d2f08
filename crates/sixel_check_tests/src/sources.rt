//! When a string is told, and what is told after a failure.

use sixel_io::SliceSource;
use sixel_model::Profile;
use sixel_scan::{Scan, ScanFault};
use sixel_test_devices::CountingDevice;
use std::alloc::Global;

/// A portable string, and another.
const TWO: &[u8] = b"\x1bPq\"1;1;1;1#0;2;0;0;0#0@\x1b\\\x1bPq\"1;1;1;1#0;2;0;0;0#0@\x1b\\";

/// How many bytes the source has given, one a call, when the first string is told.
fn calls_for_the_first(alloc: Global, bytes: &[u8]) -> u64 {
    let mut source = CountingDevice::new(SliceSource::new(bytes, 1, None));
    let mut scan = Scan::new(alloc, Profile::Registers16, false);
    let _ = scan.next_string(&mut source);
    source.calls.fills
}

#[test]
fn strings_are_told_when_they_end(rt: HostRuntime) {
    assert!(rt; calls_for_the_first(rt.alloc(), TWO) == 26, "ESC \\");
    assert!(rt;
        calls_for_the_first(rt.alloc(), b"ab\x1bPq#0\x1acd") == 8,
        "SUB"
    );
    assert!(rt;
        calls_for_the_first(rt.alloc(), b"ab\x1bPq#0\x1b[2Jcd") == 9,
        "a control sequence"
    );
}

/// Whether the first string is told, a failure comes next, and then the second string, if the source gives a byte a
/// call and this call fails.
fn reads_on(alloc: Global, fail_at: u64) -> bool {
    let mut source = SliceSource::new(TWO, 1, Some(fail_at));
    let mut scan = Scan::new(alloc, Profile::Registers16, false);
    match scan.next_string(&mut source) {
        Ok(Some(scanned)) if scanned.place == 0 => {}
        _ => return false,
    }
    match scan.next_string(&mut source) {
        Err(ScanFault::Read) => {}
        _ => return false,
    }
    match scan.next_string(&mut source) {
        Ok(Some(scanned)) => scanned.place == 26,
        _ => false,
    }
}

#[test]
fn failures_lose_nothing(rt: HostRuntime) {
    for fail_at in [26, 27, 29, 40, 51] {
        assert!(rt; reads_on(rt.alloc(), fail_at), "at {fail_at}");
    }
}
