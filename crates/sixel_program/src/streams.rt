//! The streams of the program: what a task reads, what it writes, and the status with which the program ends.

ghost use Rattle.std.specs.Prelude.{◌≡◌};
ghost use Rattle.sixel_report.specs.Exits.{exit_code};
ghost use Rattle.sixel_program.specs.Streams.{input_remaining, status_for};

use sixel_report::{Exit, code_of};
use std::cell::Cell;
use std::io;
use std::io::{ErrorKind, Read, Write};

/// What a task reads: standard input or a file. They are one type, so that each task is compiled only once.
#[derive(Drop)]
pub enum Input<S, F> {
    Standard(S),
    Named(F),
}

/// A read is one of the reader inside: its bytes, its end and its errors are those.
impl<S: Read, F: Read> Read for Input<S, F> {
    ghost remaining = { input_remaining S.remaining F.remaining };

    fn read(&mut self, buf: &mut [u8]) -> io::Result<usize> {
        match self {
            Input::Standard(input) => input.read(buf),
            Input::Named(file) => file.read(buf),
        }
    }
}

/// Standard output. It notes if it is a pipe that nobody reads any more.
#[derive(Drop)]
pub struct Output<'a, W> {
    pub stream: W,
    pub is_closed: &'a Cell<bool>,
}

/// A write is one of the writer inside, and so is a flush. No contract says what the cell holds.
impl<W: Write> Write for Output<'_, W> {
    ghost contents = { λ output. W.contents output.stream };

    fn write(&mut self, buf: &[u8]) -> io::Result<usize> {
        let written = self.stream.write(buf);
        if let Err(error) = &written {
            if error.kind() == ErrorKind::BrokenPipe {
                self.is_closed.set(true);
            }
        }
        written
    }

    fn flush(&mut self) -> io::Result<()> {
        self.stream.flush()
    }
}

/// Standard error. It says nothing once nobody reads standard output, so no contract says what it holds.
#[derive(Drop)]
pub struct Errors<'a, W> {
    pub stream: W,
    pub is_closed: &'a Cell<bool>,
}

impl<W: Write> Write for Errors<'_, W> {
    fn write(&mut self, buf: &[u8]) -> io::Result<usize> {
        if self.is_closed.get() {
            return Ok(buf.len());
        }
        self.stream.write(buf)
    }

    fn flush(&mut self) -> io::Result<()> {
        self.stream.flush()
    }
}

/// The exit status if nobody reads the output any more: a shell's for a program that SIGPIPE ended.
const CLOSED: u8 = 141;

/// The exit status of the program, from how the request ended and whether nobody reads the output any more.
pub fn status_of(exit: Exit, is_closed: bool) -> u8
    ensures { result ≡ status_for is_closed (exit_code exit) }
{
    if is_closed { CLOSED } else { code_of(exit) }
}
