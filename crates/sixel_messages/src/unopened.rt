//! Why a file can't be opened.

ghost use Rattle.std.specs.Prelude.{◌≡◌, ◌≤◌, ◌∷◌, ◌++◌, [], length};
ghost use Rattle.sixel_messages.specs.Unopened.{reason_text};

use arrayvec::ArrayVec;
use std::io;
use std::io::ErrorKind;

/// Why a file can't be opened.
#[derive(Clone, Copy, Debug, PartialEq, Eq)]
pub enum Unopened {
    /// No file has this name.
    NotFound,
    PermissionDenied,
    /// It is a folder.
    IsFolder,
    /// A file is named as if it were a folder.
    NotFolder,
    /// Symbolic links lead to others, too many in turn.
    Links,
    /// Its name, or a part of it, is too long.
    LongName,
    /// Its name isn't valid UTF-8.
    NotText,
    /// There is another reason.
    Failed,
}

impl From<io::Error> for Unopened {
    ghost use Rattle.std.specs.Prelude.{◌≡◌};
    ghost use Rattle.std.specs.IoError.{error_kind};
    ghost use Rattle.sixel_messages.specs.Unopened.{reason_of};

    ghost from_gives = { λ error result. result ≡ reason_of (error_kind error) };

    fn from(error: io::Error) -> Unopened {
        match error.kind() {
            ErrorKind::NotFound => Unopened::NotFound,
            ErrorKind::PermissionDenied => Unopened::PermissionDenied,
            ErrorKind::IsADirectory => Unopened::IsFolder,
            ErrorKind::NotADirectory => Unopened::NotFolder,
            ErrorKind::FilesystemLoop => Unopened::Links,
            ErrorKind::InvalidFilename => Unopened::LongName,
            _ => Unopened::Failed,
        }
    }
}

/// How a reason is printed.
pub fn reason_words(reason: Unopened) -> &'static str
    ensures text { result.now ≡ reason_text reason }
    ensures short { length result.now ≤ 46 }
{
    match reason {
        Unopened::NotFound => "no such file",
        Unopened::PermissionDenied => "permission denied",
        Unopened::IsFolder => "is a folder",
        Unopened::NotFolder => "not a directory: read failed",
        Unopened::Links => "too many levels of symbolic links: read failed",
        Unopened::LongName => "file name too long: read failed",
        Unopened::NotText => "name is not valid UTF-8",
        Unopened::Failed => "read failed",
    }
}

/// The same with the space before it and the line feed after it.
pub fn reason_text(reason: Unopened) -> ArrayVec<u8, 48>
    ensures { result.items ≡ 32 ∷ reason_text reason ++ 10 ∷ [] }
{
    let mut text = ArrayVec::new();
    text.push(b' ');
    let _ = text.try_extend_from_slice(reason_words(reason).as_bytes());
    text.push(b'\n');
    text
}
