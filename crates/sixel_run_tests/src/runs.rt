//! Runs of a task over devices that count their calls and fail where they are told to.

ghost use Rattle.sixel_report.specs.Outputs.{HasSides};

use sixel_io::{SliceSink, SliceSource};
use sixel_report::{RunFault, Status, Task};
use sixel_run::run;
use sixel_test_devices::{Calls, CountingDevice};
use std::alloc::Global;

/// What a run over counting devices answered and wrote into the room, and the calls that they saw.
#[derive(Drop)]
pub struct Ran {
    pub answer: Result<Status, RunFault>,
    pub written: usize,
    pub source: Calls,
    pub sink: Calls,
}

/// How many bytes one call of each device moves at most, and which of their calls fail.
#[derive(Clone, Copy)]
pub struct Limits {
    pub piece: usize,
    pub fill_fails: Option<u64>,
    pub most: usize,
    pub take_fails: Option<u64>,
}

/// Runs the task on the bytes over devices with these limits.
pub fn run_counted(alloc: Global, task: Task, bytes: &[u8], limits: Limits, room: &mut [u8]) -> Ran
    requires { HasSides task }
{
    let piece = limits.piece.max(1);
    let most = limits.most.max(1);
    let mut input = CountingDevice::new(SliceSource::new(bytes, piece, limits.fill_fails));
    let mut output = CountingDevice::new(SliceSink::new(room, most, limits.take_fails));
    let answer = run(alloc, task, &mut input, &mut output);
    let written = output.device.written().len();
    Ran {
        answer,
        written,
        source: input.calls,
        sink: output.calls,
    }
}
