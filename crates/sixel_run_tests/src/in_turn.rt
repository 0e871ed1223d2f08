//! For each task, each call of a device fails in turn; and the calls of whole runs are counted.

ghost use Rattle.sixel_report.specs.Outputs.{HasSides};

use crate::runs::{Limits, run_counted};
use sixel_check::{Finding, Rule};
use sixel_emulator_check::{NamedFinding, NamedRule};
use sixel_emulator_rules::{AskedRules, Terminals};
use sixel_fit::Fitting;
use sixel_grammar::{Fault, Reason};
use sixel_model::{Colour, Profile};
use sixel_ppm::PpmReason;
use sixel_report::{PictureFormat, RuleSet, RunFault, Status, Task};
use std::alloc::Global;

/// No rule is ignored.
const NO_RULES: AskedRules = AskedRules {
    raster_late: false,
    dropped: false,
    stale: false,
    large: false,
    rows: false,
    past: false,
    hue: false,
    far: false,
    introducer: false,
    bare: false,
    space_after: false,
};

/// No named terminal.
const NO_TERMINALS: Terminals = Terminals {
    xterm: false,
    mlterm: false,
    foot: false,
    konsole: false,
    ignored: NO_RULES,
};

const CHECK: Task = Task::Check {
    profile: Profile::Registers16,
    terminals: NO_TERMINALS,
};

const WIDE_CHECK: Task = Task::Check {
    profile: Profile::Registers256,
    terminals: NO_TERMINALS,
};

const SURVEY: Task = Task::Survey {
    profile: Profile::Registers16,
    terminals: NO_TERMINALS,
};

const RENDER: Task = Task::Render {
    profile: Profile::Registers16,
    format: PictureFormat::Ppm,
};

const WIDE_RENDER: Task = Task::Render {
    profile: Profile::Registers256,
    format: PictureFormat::Ppm,
};

/// A screen of one pixel.
const WIDE_SCREEN: Task = Task::Show {
    profile: Profile::Registers256,
    showing: false,
    fill: false,
    selects: false,
    width: 1,
    height: 1,
    format: PictureFormat::Ppm,
};

/// A screen with the sides of the declared box.
const SHOW_BOX: Task = Task::ShowBox {
    profile: Profile::Registers16,
    showing: false,
    fill: false,
    selects: false,
    format: PictureFormat::Ppm,
};

/// What a task reads, and what it writes and answers if no device fails.
#[derive(Clone, Copy)]
struct Case {
    bytes: &'static [u8],
    text: &'static [u8],
    answer: Result<Status, RunFault>,
    /// After how many bytes of input how much of the text is written, if that is before the end.
    parts: &'static [(usize, usize)],
    /// The size of the pieces for input and output, and then the numbers of fills and takes. The fills give the bytes up
    /// to the one with the fault, or all bytes and then the end.
    calls: [(usize, u64, u64); 3],
}

/// One black pixel: 26 bytes.
const PIXEL: &[u8] = b"\x1bPq\"1;1;1;1#0;2;0;0;0#0@\x1b\\";

/// The PPM of that pixel.
const BLACK: &[u8] = b"P6\n1 1\n100\n\x00\x00\x00";

/// A number that is too large, at its fifth digit: nothing is written, no verdict, no picture, no screen.
const FAULT: Case = Case {
    bytes: b"\x1bPq!65536~",
    text: b"",
    answer: Err(RunFault::Grammar(Fault {
        reason: Reason::NumberTooLarge,
        place: 8,
    })),
    parts: &[],
    calls: [(1, 9, 0), (5, 2, 0), (64, 1, 0)],
};

/// The lines of the pixel, which in pieces of 5 bytes leave as 15, 17, 43 and 12 bytes; and a fault after a line.
const LISTED: [Case; 2] = [
    Case {
        bytes: PIXEL,
        text: b"0 start 7bit 0\n3 raster 1 1 1 1\n11 define 0 2 0 0 0\n21 select 0\n23 sixel 1\n24 end 7bit\n",
        answer: Ok(Status::Done),
        parts: &[(3, 15), (12, 32), (22, 52), (24, 75), (26, 87)],
        calls: [(1, 27, 87), (5, 7, 19), (64, 2, 2)],
    },
    Case {
        text: b"0 start 7bit 0\n",
        parts: &[(3, 15)],
        calls: [(1, 9, 15), (5, 2, 3), (64, 1, 1)],
        ..FAULT
    },
];

/// One pixel.
const CHECKED: Case = Case {
    bytes: PIXEL,
    text: b"portable 1 1\n",
    answer: Ok(Status::Done),
    parts: &[],
    calls: [(1, 27, 13), (5, 7, 3), (64, 2, 1)],
};

/// A box of two pixels, one of them painted.
const UNCOVERED: Case = Case {
    bytes: b"\x1bPq\"1;1;2;1#0;2;0;0;0#0@\x1b\\",
    text: b"broken Uncovered 24 1 0\n",
    answer: Ok(Status::Broken(Finding {
        rule: Rule::Uncovered,
        place: 24,
        pixel: Some((1, 0)),
    })),
    parts: &[],
    calls: [(1, 27, 24), (5, 7, 5), (64, 2, 1)],
};

/// One pixel, rendered, or shown on a screen of its box.
const RENDERED: Case = Case {
    text: BLACK,
    calls: [(1, 27, 14), (5, 7, 3), (64, 2, 1)],
    ..CHECKED
};

/// Five red pixels of 26 bytes, and a file of another kind: its second byte is wrong.
const ENCODED: [Case; 2] = [
    Case {
        bytes: b"P6 5 1 100\nd\0\0d\0\0d\0\0d\0\0d\0\0",
        text: b"\x1bP0;1q\"1;1;5;1#0;2;100;0;0#0!5@\x1b\\",
        answer: Ok(Status::Done),
        parts: &[],
        calls: [(1, 27, 33), (5, 7, 7), (64, 2, 1)],
    },
    Case {
        bytes: b"P5 1 1 100",
        answer: Err(RunFault::Ppm {
            reason: PpmReason::Header,
            place: 1,
        }),
        calls: [(1, 2, 0), (5, 1, 0), (64, 1, 0)],
        ..FAULT
    },
];

/// 5 bytes without a box, of which nothing is painted: no screen, and no mended text.
const EMPTY: Case = Case {
    bytes: b"\x1bPq\x1b\\",
    answer: Err(RunFault::NoBox),
    calls: [(1, 6, 0), (5, 2, 0), (64, 2, 0)],
    ..FAULT
};

/// A column painted in register 1, the grey of 6 percent, and then the box: 19 bytes.
const BOXED: [Case; 2] = [
    Case {
        bytes: b"\x1bPq#1@\"1;1;1;1#2@\x1b\\",
        text: b"P6\n1 1\n100\n\x06\x06\x06",
        calls: [(1, 20, 14), (5, 5, 3), (64, 2, 1)],
        ..CHECKED
    },
    EMPTY,
];

/// One pixel, mended.
const MENDED: [Case; 2] = [
    Case {
        text: b"\x1bP0;1q\"1;1;1;1#0;2;0;0;0#0@\x1b\\",
        calls: [(1, 27, 29), (5, 7, 6), (64, 2, 1)],
        ..CHECKED
    },
    Case {
        answer: Err(RunFault::Empty),
        ..EMPTY
    },
];

/// One black pixel in register 16, of 28 bytes.
const WIDE_CHECKED: Case = Case {
    bytes: b"\x1bPq\"1;1;1;1#16;2;0;0;0#16@\x1b\\",
    calls: [(1, 29, 13), (5, 7, 3), (64, 2, 1)],
    ..CHECKED
};

/// The same, rendered.
const WIDE_RENDERED: Case = Case {
    text: BLACK,
    calls: [(1, 29, 14), (5, 7, 3), (64, 2, 1)],
    ..WIDE_CHECKED
};

/// The starting colour of register 17: 9 bytes.
const WIDE_SHOWN: Case = Case {
    bytes: b"\x1bPq#17@\x1b\\",
    text: b"P6\n1 1\n100\n\x11\x11\x11",
    calls: [(1, 10, 14), (5, 3, 3), (64, 2, 1)],
    ..CHECKED
};

/// Three broken rules, surveyed: 15 bytes in, 46 out.
fn three() -> Case {
    let mut rules = RuleSet::new();
    for rule in [Rule::RasterFirst, Rule::RepeatZero, Rule::Unselected] {
        rules.add(NamedRule::Portable(rule));
    }
    let first = NamedFinding::Portable(Finding {
        rule: Rule::RasterFirst,
        place: 3,
        pixel: None,
    });
    Case {
        bytes: b"\x1bPq!0@!65535~\x1b\\",
        text: b"RasterFirst 3 3\nRepeatZero 1 3\nUnselected 2 3\n",
        answer: Ok(Status::Surveyed { first, rules }),
        parts: &[],
        calls: [(1, 16, 46), (5, 4, 10), (64, 2, 1)],
    }
}

/// How much of the text is written before the source fails after `given` bytes.
fn written_after(case: &Case, given: usize) -> usize {
    let mut written = 0;
    for (bytes, part) in case.parts {
        if given >= *bytes {
            written = *part;
        }
    }
    written
}

/// Whether a run stops at this failing fill, and doesn't fill again.
fn stops_at_fill(alloc: Global, task: &Task, case: &Case, piece: usize, fill: u64) -> bool
    requires { HasSides task.now }
{
    let limits = Limits {
        piece,
        fill_fails: Some(fill),
        most: piece,
        take_fails: None,
    };
    let mut room = [0; 128];
    let ran = run_counted(alloc, *task, case.bytes, limits, &mut room);
    let count = written_after(case, piece.saturating_mul(fill as usize));
    ran.answer == Err(RunFault::Read)
        && room.get(..ran.written) == case.text.get(..count)
        && ran.source.fills == fill.saturating_add(1)
        && ran.sink.flushes == 1
}

/// Whether a run stops at this failing take or flush, and doesn't call the sink again: a prefix of the text is written.
/// A list writes the lines of each piece on their own, so not all of its takes are full.
fn stops_at_take(
    alloc: Global,
    task: &Task,
    case: &Case,
    piece: usize,
    take: u64,
    flushes: u64,
) -> bool
    requires { HasSides task.now }
{
    let limits = Limits {
        piece,
        fill_fails: None,
        most: piece,
        take_fails: Some(take),
    };
    let mut room = [0; 128];
    let ran = run_counted(alloc, *task, case.bytes, limits, &mut room);
    let full = piece.saturating_mul(take as usize).min(case.text.len());
    ran.answer == Err(RunFault::Write)
        && (ran.written == full || piece > 1 && !case.parts.is_empty())
        && room.get(..ran.written) == case.text.get(..ran.written)
        && ran.sink.takes.saturating_add(ran.sink.flushes) == take.saturating_add(1)
        && ran.sink.flushes == flushes
}

/// Whether a run ends with this many fills and takes. Each device would fail at the call after its last.
fn is_whole(alloc: Global, task: &Task, case: &Case, piece: usize, fills: u64, takes: u64) -> bool
    requires { HasSides task.now }
{
    let limits = Limits {
        piece,
        fill_fails: Some(fills),
        most: piece,
        take_fails: Some(takes.saturating_add(1)),
    };
    let mut room = [0; 128];
    let ran = run_counted(alloc, *task, case.bytes, limits, &mut room);
    ran.answer == case.answer
        && room.get(..ran.written) == Some(case.text)
        && ran.source.fills == fills
        && ran.sink.takes == takes
        && ran.sink.flushes == 1
}

/// Each call of each device fails in turn, in pieces of this size.
fn stops_in_pieces(
    alloc: Global,
    task: &Task,
    case: &Case,
    piece: usize,
    fills: u64,
    takes: u64,
) -> bool
    requires { HasSides task.now }
{
    for fill in 0..fills {
        if !stops_at_fill(alloc, task, case, piece, fill) {
            return false;
        }
    }
    for take in 0..takes {
        if !stops_at_take(alloc, task, case, piece, take, 0) {
            return false;
        }
    }
    stops_at_take(alloc, task, case, piece, takes, 1)
        && is_whole(alloc, task, case, piece, fills, takes)
}

/// The same in pieces of each size, of the task on the bytes of each case.
fn all_stop(alloc: Global, task: &Task, cases: &[Case]) -> bool
    requires { HasSides task.now }
{
    for case in cases {
        for (piece, fills, takes) in case.calls {
            if !stops_in_pieces(alloc, task, case, piece, fills, takes) {
                return false;
            }
        }
    }
    true
}

/// For no named terminal.
fn for_none() -> Fitting {
    Fitting {
        terminals: NO_TERMINALS,
        pad: Colour::of_percentages(0, 0, 0),
    }
}

#[test]
fn each_call_of_a_device_fails(rt: HostRuntime) {
    let alloc = rt.alloc();
    assert!(rt; all_stop(alloc, &Task::List, &LISTED));
    assert!(rt; all_stop(alloc, &CHECK, &[CHECKED, UNCOVERED, FAULT]));
    assert!(rt; all_stop(alloc, &SURVEY, &[CHECKED, three(), FAULT]));
    assert!(rt; all_stop(alloc, &RENDER, &[RENDERED, FAULT]));
    let encode = Task::Encode {
        profile: Profile::Registers16,
        fitting: for_none(),
    };
    assert!(rt; all_stop(alloc, &encode, &ENCODED));
    assert!(rt; all_stop(alloc, &SHOW_BOX, &[RENDERED, FAULT]));
    assert!(rt; all_stop(alloc, &SHOW_BOX, &BOXED));
    let mend = Task::Mend {
        profile: Profile::Registers16,
        background: Colour::of_percentages(0, 0, 0),
        showing: false,
        selects: false,
        fitting: for_none(),
    };
    assert!(rt; all_stop(alloc, &mend, &MENDED));
    assert!(rt; all_stop(alloc, &mend, &[FAULT]));
}

#[test]
fn each_call_of_a_device_fails_in_the_wide_profile(rt: HostRuntime) {
    let alloc = rt.alloc();
    assert!(rt; all_stop(alloc, &WIDE_CHECK, &[WIDE_CHECKED, FAULT]));
    assert!(rt; all_stop(alloc, &WIDE_RENDER, &[WIDE_RENDERED, FAULT]));
    assert!(rt; all_stop(alloc, &WIDE_SCREEN, &[WIDE_SHOWN, FAULT]));
}
