//! Requests over documents in memory, with a digest of what they write and of how they end.

ghost use Rattle.std.specs.Prelude.{None};
ghost use Rattle.sixel_report.specs.Outputs.{HasSides};

use crate::digest::{Digest, Digested};
use sixel_io::{FromRead, ToWrite};
use sixel_program::{Folder, Peeked, Terminals, Unopened, execute};
use sixel_report::{Exit, Lines, Request, Task, code_of};
use std::alloc::{AllocError, Global};
use std::io;
use std::io::Read;

const NO_TERMINALS: Terminals = Terminals {
    input: false,
    output: false,
    errors: false,
};

/// Files in memory. The name of each is its index.
#[derive(Drop)]
pub struct Files {
    pub texts: Vec<Vec<u8>>,
}

/// The files as a folder.
#[derive(Drop)]
struct Borrowed<'a> {
    files: &'a Files,
}

/// The rest of an open file.
#[derive(Drop)]
struct Opened<'a> {
    rest: &'a [u8],
}

impl Read for Opened<'_> {
    fn read(&mut self, buf: &mut [u8]) -> io::Result<usize> {
        self.rest.read(buf)
    }
}

impl<'a> Folder for Borrowed<'a> {
    type Opened = FromRead<Opened<'a>>;

    ghost opening = { λ folder name. None };

    fn open(&self, name: &str) -> Result<FromRead<Opened<'a>>, Unopened> {
        let index: usize = match name.parse() {
            Ok(index) => index,
            Err(_) => return Err(Unopened::NotText),
        };
        match self.files.texts.as_slice().get(index) {
            Some(text) => Ok(FromRead::new(Opened {
                rest: text.as_slice(),
            })),
            None => Err(Unopened::NotFound),
        }
    }
}

/// Carries out requests, and keeps a digest.
#[derive(Drop)]
pub struct Session {
    alloc: Global,
    digest: Digest,
}

impl Session {
    pub fn new(alloc: Global) -> Session {
        Session {
            alloc,
            digest: Digest::new(),
        }
    }

    /// Carries out a task over the files with these names, or over the bytes as standard input if there are none.
    fn execute(&mut self, task: &Task, names: Vec<String>, files: &Files, input: &[u8])
        requires { HasSides task.now }
    {
        let request = Request {
            task: *task,
            lines: Lines::Plain { only_failed: false },
            explains: false,
            files: names,
        };
        let mut said = Digest::new();
        let exit: Exit = execute(
            self.alloc,
            &request,
            &Borrowed { files },
            NO_TERMINALS,
            &mut Peeked::new(FromRead::new(input)),
            &mut ToWrite::new(Digested {
                digest: &mut self.digest,
            }),
            &mut ToWrite::new(Digested { digest: &mut said }),
        );
        self.digest.add(&said.sum().to_be_bytes());
        self.digest.add(&[code_of(exit)]);
    }

    /// Carries out a task over the bytes.
    pub fn run(&mut self, task: &Task, input: &[u8])
        requires { HasSides task.now }
    {
        let files = Files {
            texts: Vec::new(self.alloc),
        };
        let names = Vec::new(self.alloc);
        self.execute(task, names, &files, input);
    }

    /// Carries out a task over all the files.
    pub fn run_files(&mut self, task: &Task, files: &Files) -> Result<(), AllocError>
        requires { HasSides task.now }
    {
        let mut names = Vec::new(self.alloc);
        for index in 0..files.texts.len() {
            names.push(format!(in self.alloc; "{index}")?)?;
        }
        self.execute(task, names, files, b"");
        Ok(())
    }

    /// The digest of all so far.
    pub fn sum(&self) -> u64 {
        self.digest.sum()
    }
}
