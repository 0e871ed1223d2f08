//! Writes what a terminal shows of a document.

ghost use Rattle.std.specs.Prelude.{◌≢◌, Err, IsTrue, List, ℕ};
ghost use Rattle.sixel_grammar.specs.declared.command.Placed.{Placed as Place};
ghost use Rattle.sixel_grammar.specs.Document.{Document, events_of};
ghost use Rattle.sixel_model.specs.declared.profile.Profile.{Profile as AProfile};
ghost use Rattle.sixel_ppm.specs.Ppm.{is_file_side};
ghost use Rattle.sixel_terminal.specs.Displays.{Display};
ghost use Rattle.sixel_screen.specs.Whole.{IsWhole};
ghost use Rattle.sixel_report.specs.declared.fault.RunFault.TheVariants.{Read};
ghost use Rattle.sixel_report.specs.Outputs.{CountsWrites, WritesFile, WrotePicture};
ghost use Rattle.sixel_show.specs.Outputs.{ShowGives};
ghost use Rattle.sixel_show.specs.Watching.{IsShownAfter};

use sixel_io::Sink;
use sixel_report::{PictureFormat, RunFault, Status};
use sixel_screen::{write_png_screen, write_ppm_screen};
use sixel_terminal::Screen;

/// What a terminal shows of a document, and the status of its show.
#[derive(Debug, Drop)]
pub struct Shown {
    pub screen: Screen,
    pub status: Status,
}

/// Writes a screen in a format.
pub(crate) fn write_screen<K: Sink>(
    format: PictureFormat,
    screen: &Screen,
    output: &mut K,
) -> Result<(), RunFault>
    ensures written { IsWhole screen.now → WritesFile format result (K.state output.old) (K.state output.new)
        screen.now.width screen.now.height screen.now.colours }
    ensures unread { result ≢ Err Read }
    ensures memory { result ≢ Err RunFault.OutOfMemory }
    ensures writes { CountsWrites result (K.state output.old).failures (K.state output.new).failures }
{
    match format {
        PictureFormat::Ppm => write_ppm_screen(screen, output)?,
        PictureFormat::Png => write_png_screen(screen, output)?,
    }
    Ok(())
}

/// Writes the screen that is shown, in a format. Returns the status.
pub fn write_shown<K: Sink>(
    format: PictureFormat,
    shown: &Shown,
    output: &mut K,
) -> Result<Status, RunFault>
    ensures wrote { (profile : AProfile) (t : Display) (events : List Place) (bytes : List ℕ) →
        Document events bytes → IsShownAfter profile t shown.now (events_of events) →
        IsTrue (is_file_side t.choices.screen_width) → IsTrue (is_file_side t.choices.screen_height) →
        WrotePicture format (ShowGives profile t bytes) result
        (K.state output.old).taken (K.state output.new).taken }
    ensures unread { result ≢ Err Read }
    ensures memory { result ≢ Err RunFault.OutOfMemory }
    ensures writes { CountsWrites result (K.state output.old).failures (K.state output.new).failures }
{
    write_screen(format, &shown.screen, output)?;
    Ok(shown.status)
}
