//! Files by their names.

ghost use Rattle.std.specs.Prelude.{◌≡◌, IfOk, MatchResult, ℕ, List, None, Some};
ghost use Rattle.sixel_program.specs.Openings.{IsOpening, OpensAs, Told, bytes_told};

use crate::streams::Input;
use sixel_io::{FromRead, Source};
use sixel_messages::Unopened;
use std::fs::File;
use std::io::Stdin;

/// Opens files by their names.
pub trait Folder {
    /// An open file.
    type Opened: Source + Drop;

    /// What opening the file with this name gives, if the folder tells it.
    ghost opening: { Self → List ℕ → Told };

    /// Opens the file with this name, at its start. If the folder tells what that gives, it ends so.
    fn open(&self, name: &str) -> Result<Self::Opened, Unopened>
        ensures told { MatchResult result (λ _. OpensAs (opening self.now name.now) None)
            (λ reason. OpensAs (opening self.now name.now) (Some reason)) }
        ensures bytes { IfOk result (λ file. Self.Opened.state file ≡
            record { remaining = bytes_told (opening self.now name.now); failures = 0 }) };
}

/// Opens the file with this name. U+FFFD in a name stands for bytes that aren't valid UTF-8, and no file is opened by
/// such a name.
#[tactic(auto, using(crate::proofs::OpeningLemmas::as_the_folder, crate::proofs::OpeningLemmas::not_opened))]
pub fn open_file<F: Folder>(folder: &F, name: &str) -> Result<F::Opened, Unopened>
    ensures ended { MatchResult result (λ _. IsOpening (F.opening folder.now name.now) name.now None)
        (λ reason. IsOpening (F.opening folder.now name.now) name.now (Some reason)) }
    ensures bytes { IfOk result (λ file. F.Opened.state file ≡
        record { remaining = bytes_told (F.opening folder.now name.now); failures = 0 }) }
{
    if name.contains("\u{FFFD}") {
        return Err(Unopened::NotText);
    }
    folder.open(name)
}

/// The file system. Contracts know nothing of its files.
#[derive(Clone, Copy)]
pub struct System<'a> {
    rt: &'a HostRuntime,
}

impl<'a> System<'a> {
    /// The file system that this runtime reaches.
    pub fn new(rt: &'a HostRuntime) -> System<'a> {
        System { rt }
    }
}

impl<'a> Folder for System<'a> {
    type Opened = FromRead<Input<Stdin, File>>;

    ghost opening = { λ folder name. None };

    /// A folder opens like a file, and only a read of it fails.
    fn open(&self, name: &str) -> Result<FromRead<Input<Stdin, File>>, Unopened> {
        let file = File::open(self.rt, name)?;
        if file.metadata()?.is_dir() {
            return Err(Unopened::IsFolder);
        }
        Ok(FromRead::new(Input::Named(file)))
    }
}
