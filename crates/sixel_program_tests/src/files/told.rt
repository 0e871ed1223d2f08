//! A folder that tells what it has. So what is promised of told files holds of some.

ghost use Rattle.std.specs.Prelude.{◌≡◌, Err, IfOk, Ok, Some, false, if◌then◌else◌};
ghost use Rattle.std.specs.Str.{bytes_eq};
ghost use Rattle.sixel_model.specs.declared.profile.Profile.TheVariants.{Registers16};
ghost use Rattle.sixel_emulator_check.specs.Laws.{none};
ghost use Rattle.sixel_program.specs.Files.{is_dash};
ghost use Rattle.sixel_messages.specs.declared.unopened.Unopened.TheVariants.{NotFound};
ghost use Rattle.sixel_run.specs.Outputs.{Gives};
ghost use Rattle.sixel_report.specs.Texts.{Text};
ghost use Rattle.sixel_report.specs.declared.task.Status.TheVariants.{Done};
ghost use Rattle.sixel_report.specs.declared.task.Task.TheVariants.{Check};

use super::{CHECK, NO_TERMINALS, PIXEL, RATIO};
use sixel_io::{SliceSink, SliceSource};
use sixel_program::{Folder, Peeked, Unopened, execute};
use sixel_report::{Exit, Lines, Request};
use std::alloc::{AllocError, Global};
use std::test::Fail;

/// A folder with one file, whose bytes it tells.
#[derive(Clone, Copy)]
struct ToldFile<'a> {
    name: &'a str,
    bytes: &'a [u8],
}

impl<'a> Folder for ToldFile<'a> {
    type Opened = SliceSource<'a>;

    ghost opening = { λ folder name.
        if bytes_eq name folder.name.now then Some (Ok folder.bytes.now) else Some (Err NotFound) };

    fn open(&self, name: &str) -> Result<SliceSource<'a>, Unopened> {
        if name == self.name {
            Ok(SliceSource::new(self.bytes, 64, None))
        } else {
            Err(Unopened::NotFound)
        }
    }
}

/// Checks the file. Status 0 means that its bytes are those of a portable picture.
fn checked(alloc: Global, file: ToldFile<'_>) -> Result<Exit, AllocError>
    requires { is_dash file.name.now ≡ false }
    ensures { IfOk result (λ exit. exit ≡ Exit.Done →
        (text : Text) × Gives (Check Registers16 none) file.entry.bytes.now text (Ok Done)) }
{
    let mut files = Vec::new(alloc);
    files.push(String::from_str(alloc, file.name)?)?;
    let request = Request {
        task: CHECK,
        lines: Lines::Nothing { is_json: false },
        explains: false,
        files,
    };
    let mut said = [0; 64];
    Ok(execute(
        alloc,
        &request,
        &file,
        NO_TERMINALS,
        &mut Peeked::new(SliceSource::new(b"", 1, None)),
        &mut SliceSink::new(&mut [], 1, None),
        &mut SliceSink::new(&mut said, 64, None),
    ))
}

#[test]
fn told_files(rt: HostRuntime) -> Result<(), Fail> {
    for (bytes, exit) in [
        (PIXEL, Exit::Done),
        (RATIO, Exit::Broken),
        (b"".as_slice(), Exit::Refused),
    ] {
        assert!(rt; checked(rt.alloc(), ToldFile { name: "a", bytes })? == exit);
    }
    Ok(())
}
