//! Shows a sixel picture as one terminal would draw it.

ghost use Rattle.std.specs.Prelude.{◌≡◌, ◌≢◌, ◌*◌, [], ◌≤◌, ◌<◌, ℕ, Err, IfErr, IfOk, IfSome, IsTrue, List, None};
ghost use Rattle.std.specs.Prelude.{length};
ghost use Rattle.sixel_grammar.specs.declared.command.Placed.{Placed as Place};
ghost use Rattle.sixel_grammar.specs.Document.{Document, IsDocument, events_of};
ghost use Rattle.sixel_grammar.specs.declared.fault.InputFault.TheVariants.{Read as ReadFault};
ghost use Rattle.sixel_grammar.specs.Reading.{Explains, NoFaultBefore, failures_after};
ghost use Rattle.sixel_ppm.specs.Ppm.{is_file_side};
ghost use Rattle.sixel_model.specs.Profiles.{count_of};
ghost use Rattle.sixel_model.specs.declared.profile.Profile.{Profile as AProfile};
ghost use Rattle.sixel_model.specs.declared.colour.Parts.TheVariants.{Rgb};
ghost use Rattle.sixel_terminal.specs.Limits.{terminal_fault};
ghost use Rattle.sixel_report.specs.declared.fault.RunFault.TheVariants.{Read};
ghost use Rattle.sixel_report.specs.Outputs.{CountsWrites, WrotePicture, failures_by};
ghost use Rattle.sixel_show.specs.Outputs.{ShowGives};
ghost use Rattle.sixel_show.specs.Watching.{HasWatched, IsShownAfter};
ghost use Rattle.sixel_show.specs.Screens.{greys, percent_at, show_choices, show_terminal, white_screen};

use crate::draw::{draw, read_whole};
use crate::screen::{Shown, write_shown};
use crate::watched::Watched;
use sixel_grammar::InputFault;
use sixel_io::{PIECE, Sink, Source};
use sixel_model::{Colour, Profile};
use sixel_report::{PictureFormat, RunFault, Status};
use sixel_terminal::{Choices, Drawing, Ground, Terminal};
use std::alloc::{AllocError, Global};

/// The choices of the terminal: the given ones, a screen of this width and height in pixels with the picture at its top
/// left, and fixed values for the rest.
pub fn show_choices(showing: bool, fill: bool, selects: bool, width: u32, height: u32) -> Choices
    ensures { result ≡ show_choices showing fill selects width height }
{
    Choices {
        binds_at_showing: showing,
        selects,
        ground: if fill {
            Ground::Filled(0)
        } else {
            Ground::Kept
        },
        selected: 0,
        zero: 1,
        clamps: true,
        clips: false,
        eight_bit: true,
        tall: 1,
        screen_width: width,
        screen_height: height,
        origin_x: 0,
        origin_y: 0,
    }
}

/// Draws the document on the terminal of these choices while it reads it, and writes the screen. It doesn't flush. Without
/// memory for the screen the input is still read, so that one that is no document gets its own fault.
pub fn show<S: Source, K: Sink>(
    alloc: Global,
    profile: Profile,
    choices: Choices,
    format: PictureFormat,
    input: &mut S,
    piece: &mut [u8; PIECE],
    output: &mut K,
) -> Result<Status, RunFault>
    requires sound { terminal_fault choices (greys profile) (white_screen choices) ≡ None }
    requires wide { IsTrue (is_file_side choices.screen_width) }
    requires high { IsTrue (is_file_side choices.screen_height) }
    ensures wrote { IfSome (S.state input.old).remaining (λ bytes.
        WrotePicture format (ShowGives profile (show_terminal profile choices) bytes) result
        (K.state output.old).taken (K.state output.new).taken) }
    ensures memory { result ≡ Err RunFault.OutOfMemory → IfSome (S.state input.old).remaining IsDocument }
    ensures reads { (S.state input.new).failures ≡ failures_by Read result (S.state input.old).failures }
    ensures unread { result ≡ Err Read →
        IfSome (S.state input.old).remaining (NoFaultBefore (S.state input.new).remaining) }
    ensures writes { CountsWrites result (K.state output.old).failures (K.state output.new).failures }
{
    let shown = read_shown(alloc, profile, choices, input, piece)?;
    write_shown(format, &shown, output)
}

/// What the terminal shows after the document.
fn read_shown<S: Source>(
    alloc: Global,
    profile: Profile,
    choices: Choices,
    input: &mut S,
    piece: &mut [u8; PIECE],
) -> Result<Shown, InputFault>
    requires { terminal_fault choices (greys profile) (white_screen choices) ≡ None }
    ensures shown { IfOk result (λ shown. IfSome (S.state input.old).remaining (λ bytes.
        (events : List Place) × Document events bytes
        × IsShownAfter profile (show_terminal profile choices) shown (events_of events))) }
    ensures refused { IfErr result (λ fault. IfSome (S.state input.old).remaining (Explains fault)) }
    ensures failures { (S.state input.new).failures ≡ failures_after result (S.state input.old).failures }
    ensures unread { result ≡ Err ReadFault →
        IfSome (S.state input.old).remaining (NoFaultBefore (S.state input.new).remaining) }
    ensures memory { result ≡ Err InputFault.OutOfMemory → IfSome (S.state input.old).remaining IsDocument }
{
    let Ok(mut watched) = nothing_drawn(alloc, profile, choices) else {
        read_whole(input, piece)?;
        return Err(InputFault::OutOfMemory);
    };
    draw(input, piece, &mut watched)?;
    Ok(watched.finish(profile))
}

/// A drawing of no events, on the terminal of these choices.
pub(crate) fn nothing_drawn(
    alloc: Global,
    profile: Profile,
    choices: Choices,
) -> Result<Watched, AllocError>
    requires { terminal_fault choices (greys profile) (white_screen choices) ≡ None }
    ensures terminal { IfOk result (λ watched. watched.drawing.terminal ≡ show_terminal profile choices) }
    ensures watched { IfOk result (λ watched. HasWatched watched []) }
{
    let terminal = terminal_of(alloc, profile, choices)?;
    Ok(Watched::new(Drawing::new(alloc, terminal)?))
}

/// The terminal of `show` with these choices.
#[tactic(auto, unfolding(crate::specs::Screens::show_terminal))]
fn terminal_of(alloc: Global, profile: Profile, choices: Choices) -> Result<Terminal, AllocError>
    requires { terminal_fault choices (greys profile) (white_screen choices) ≡ None }
    ensures { IfOk result (λ terminal. terminal ≡ show_terminal profile choices) }
{
    match Terminal::plain(choices, greys(alloc, profile)?, grey(100)) {
        Ok(terminal) => Ok(terminal),
        Err(_) => unreachable!(),
    }
}

fn grey(percent: u8) -> Colour
    requires { percent ≤ 100 }
    ensures { result ≡ Rgb percent percent percent }
{
    Colour::rgb(percent, percent, percent).unwrap()
}

/// The grey that a register starts with, in percent.
fn percent_at(profile: Profile, register: u16) -> u8
    requires { register < count_of profile }
    ensures value { result ≡ percent_at profile register }
    ensures in_range { result ≤ 100 }
{
    match profile {
        Profile::Registers16 => 6 * register as u8,
        Profile::Registers256 => (register % 101) as u8,
    }
}

/// The starting colours of the registers of the profile.
#[tactic(auto, using(crate::proofs::ScreenLemmas::greys_more))]
fn greys(alloc: Global, profile: Profile) -> Result<Vec<Colour>, AllocError>
    ensures { IfOk result (λ colours. colours.items ≡ greys profile) }
{
    let mut colours = Vec::with_capacity(alloc, profile.count() as usize)?;
    for register in 0..profile.count() {
        colours.push(grey(percent_at(profile, register)))?;
    }
    Ok(colours)
}
