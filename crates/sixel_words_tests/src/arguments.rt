//! Arguments in memory, and what is said if they can't be read.

ghost use Rattle.std.specs.Prelude.{◌≡◌, ◌≤◌, Some, length, map, take};

use sixel_io::SliceSink;
use sixel_report::Exit;
use sixel_words::{Arguments, WordsFault, arguments_of, task_in, tell};
use std::alloc::AllocError;
use std::env::FillError;
use std::test::Fail;

/// Arguments in memory, which are told.
#[derive(Clone, Copy)]
struct Given<'a> {
    arguments: &'a [&'a [u8]],
}

/// Writes the bytes over the first of the room.
fn put_front(room: &mut [u8], bytes: &[u8])
    requires { length bytes.now ≤ length room.old }
    ensures { take (length bytes.now) room.new ≡ bytes.now }
{
    room[..bytes.len()].copy_from_slice(bytes);
}

impl Arguments for Given<'_> {
    ghost given = { λ g. Some (map (λ a. a.now) g.arguments.now) };

    fn copy(&self, index: usize, room: &mut [u8]) -> Result<usize, FillError> {
        let Some(argument) = self.arguments.get(index) else {
            return Err(FillError::NotPresent);
        };
        if room.len() < argument.len() {
            return Err(FillError::TooLong);
        }
        put_front(room, argument);
        Ok(argument.len())
    }
}

/// In their order, also if they are empty. What isn't valid UTF-8 is U+FFFD, in each part that Unicode counts as one.
#[test]
fn reads_the_arguments(rt: HostRuntime) -> Result<(), Fail> {
    let rows: [(&[&[u8]], &str); 4] = [
        (&[], "[]"),
        (&[b"sixel", b"", b"list"], "[\"sixel\", \"\", \"list\"]"),
        (
            &[b"sixel", b"check", b"\xff.six", b"caf\xc3\xa9"],
            "[\"sixel\", \"check\", \"\u{fffd}.six\", \"caf\u{e9}\"]",
        ),
        (
            &[b"a\xf0\x90\x80b\xc0\x80"],
            "[\"a\u{fffd}b\u{fffd}\u{fffd}\"]",
        ),
    ];
    for (arguments, texts) in rows {
        let words = arguments_of(rt.alloc(), &Given { arguments })?;
        let told = format!(in rt.alloc(); "{words:?}")?;
        assert!(rt; told.as_str() == texts, "{texts}");
    }
    Ok(())
}

/// Without memory for the arguments nothing is asked for, and standard error says so.
#[test]
fn arguments_that_are_not_read(rt: HostRuntime) -> Result<(), Fail> {
    let fault = match task_in(rt.alloc(), Err(AllocError)) {
        Ok(_) => return Err(Fail::from("a task")),
        Err(fault) => fault,
    };
    assert!(rt; matches!(&fault, WordsFault::OutOfMemory));
    let mut room = [0; 64];
    let mut errors = SliceSink::new(&mut room, 64, None);
    let exit = tell(
        rt.alloc(),
        fault,
        &mut SliceSink::new(&mut [], 1, None),
        &mut errors,
    );
    assert!(rt; exit == Exit::Refused && errors.written() == b"sixel: out of memory\n".as_slice());
    Ok(())
}
