//! Files instead of standard input.

ghost use Rattle.std.specs.Prelude.{None};

mod told;

use sixel_emulator_rules::{AskedRules, Terminals as NamedTerminals};
use sixel_io::{SliceSink, SliceSource};
use sixel_model::Profile;
use sixel_program::{Folder, Peeked, Terminals, Unopened, execute};
use sixel_report::{Exit, Lines, Request, Task};
use std::test::Fail;

/// No rule is ignored.
const NO_RULES: AskedRules = AskedRules {
    raster_late: false,
    dropped: false,
    stale: false,
    large: false,
    rows: false,
    past: false,
    hue: false,
    far: false,
    introducer: false,
    bare: false,
    space_after: false,
};

/// A check for no named terminal.
const CHECK: Task = Task::Check {
    profile: Profile::Registers16,
    terminals: NamedTerminals {
        xterm: false,
        mlterm: false,
        foot: false,
        konsole: false,
        ignored: NO_RULES,
    },
};

/// No standard stream is a terminal.
const NO_TERMINALS: Terminals = Terminals {
    input: false,
    output: false,
    errors: false,
};

/// One black pixel.
const PIXEL: &[u8] = b"\x1bPq\"1;1;1;1#0;2;0;0;0#0@\x1b\\";

const RATIO: &[u8] = b"\x1bPq\"2;1;1;1\x1b\\";

/// A folder whose files can't be opened.
#[derive(Clone, Copy)]
struct Locked {
    reason: Unopened,
}

impl Folder for Locked {
    type Opened = SliceSource<'static>;

    ghost opening = { λ folder name. None };

    fn open(&self, _name: &str) -> Result<SliceSource<'static>, Unopened> {
        Err(self.reason)
    }
}

/// For these reasons no file of a test can be relied on not to be opened.
#[test]
fn files_that_cannot_be_opened(rt: HostRuntime) -> Result<(), Fail> {
    for (reason, line) in [
        (
            Unopened::PermissionDenied,
            b"sixel: a: permission denied\n".as_slice(),
        ),
        (Unopened::Failed, b"sixel: a: read failed\n"),
    ] {
        let mut files = Vec::new(rt.alloc());
        files.push(String::from_str(rt.alloc(), "a")?)?;
        let request = Request {
            task: CHECK,
            lines: Lines::Plain { only_failed: false },
            explains: false,
            files,
        };
        let mut room = [0; 64];
        let mut said = SliceSink::new(&mut room, 64, None);
        let exit = execute(
            rt.alloc(),
            &request,
            &Locked { reason },
            NO_TERMINALS,
            &mut Peeked::new(SliceSource::new(b"", 1, None)),
            &mut SliceSink::new(&mut [], 1, None),
            &mut said,
        );
        assert!(rt; exit == Exit::Refused && said.written() == line);
    }
    Ok(())
}
