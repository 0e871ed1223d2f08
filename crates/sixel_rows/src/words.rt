//! The task that the arguments of a row name.

ghost use Rattle.std.specs.Prelude.{IfOk, IsTrue};
ghost use Rattle.sixel_ppm.specs.Ppm.{is_file_side};
ghost use Rattle.sixel_report.specs.Outputs.{HasSides, HasSidesIn};

use crate::format::RowFault;
use sixel_emulator_rules::Terminals;
use sixel_fit::Fitting;
use sixel_model::{Colour, Profile};
use sixel_named_terminals::Named;
use sixel_report::{Area, MOST_SCREEN_SIDE, PictureFormat, Task};

/// A row has the bytes of the output, and a picture has many PNGs.
const FORMAT: PictureFormat = PictureFormat::Ppm;

/// The options of a row.
#[derive(Clone, Copy, Default)]
struct Options<'a> {
    wide: bool,
    eight_bit: bool,
    showing: bool,
    fill: bool,
    selects: bool,
    boxed: bool,
    sheet: bool,
    on: Option<&'a str>,
    background: Option<&'a str>,
    pad: Option<&'a str>,
    width: Option<&'a str>,
    height: Option<&'a str>,
}

/// An option whose value is the next argument.
#[derive(Clone, Copy)]
enum Awaited {
    Nothing,
    On,
    Background,
    Pad,
    Width,
    Height,
}

/// The task that the arguments name.
pub fn task_of(words: &str) -> Result<Task, RowFault>
    ensures { IfOk result HasSides }
{
    let (name, rest) = words.split_once(' ').unwrap_or((words, ""));
    let options = options_of(rest)?;
    let (is_wide, is_plain) = kind_of(options);
    let profile = profile_of(options.wide);
    match name {
        "scan" if is_wide && !options.sheet => Ok(Task::Scan {
            profile,
            eight_bit: options.eight_bit,
        }),
        _ if options.eight_bit => Err(RowFault::Words),
        "differ" => differing(options),
        _ if options.sheet => Err(RowFault::Words),
        "list" if is_plain => Ok(Task::List),
        "check" if is_ruled(options) => Ok(Task::Check {
            profile,
            terminals: terminals_of(options.on)?,
        }),
        "survey" if is_ruled(options) => Ok(Task::Survey {
            profile,
            terminals: terminals_of(options.on)?,
        }),
        "render" if is_wide => Ok(Task::Render {
            profile,
            format: FORMAT,
        }),
        "encode" if is_made(options) => Ok(Task::Encode {
            profile,
            fitting: fitting_of(options, "0,0,0")?,
        }),
        "mend" => mended(profile, options),
        "show" => shown(profile, options),
        _ => Err(RowFault::Words),
    }
}

/// Whether there is no option except `--wide` and `--eight-bit`, and whether there is none except `--eight-bit`.
fn kind_of(options: Options<'_>) -> (bool, bool) {
    let is_wide = !options.showing
        && !options.fill
        && !options.selects
        && !options.boxed
        && options.on.is_none()
        && options.background.is_none()
        && options.pad.is_none()
        && options.width.is_none()
        && options.height.is_none();
    (is_wide, is_wide && !options.wide)
}

/// Whether there is no option except `--wide`, `--on` and `--eight-bit`.
fn is_ruled(options: Options<'_>) -> bool {
    let (is_wide, _) = kind_of(Options {
        on: None,
        ..options
    });
    is_wide
}

/// The same with `--pad`, which only goes with `--on`.
fn is_made(options: Options<'_>) -> bool {
    is_ruled(Options {
        pad: None,
        ..options
    })
}

/// The terminals that are to show a picture, and the colour of rows below it, which is this one without the option.
fn fitting_of(options: Options<'_>, fallback: &str) -> Result<Fitting, RowFault> {
    if options.pad.is_some() && options.on.is_none() {
        return Err(RowFault::Words);
    }
    Ok(Fitting {
        terminals: terminals_of(options.on)?,
        pad: colour_of(options.pad.unwrap_or(fallback))?,
    })
}

/// The terminals whose rules count.
fn terminals_of(names: Option<&str>) -> Result<Terminals, RowFault> {
    let mut terminals = Terminals::none();
    match names {
        None => {}
        Some("all") => terminals = Terminals::all(),
        Some(names) => {
            for name in names.split(',') {
                add_terminal(&mut terminals, named_of(name)?);
            }
        }
    }
    Ok(terminals)
}

fn add_terminal(terminals: &mut Terminals, named: Named) {
    match named {
        Named::XTerm => terminals.xterm = true,
        Named::MlTerm => terminals.mlterm = true,
        Named::Foot => terminals.foot = true,
        Named::Konsole => terminals.konsole = true,
    }
}

fn profile_of(wide: bool) -> Profile {
    if wide {
        Profile::Registers256
    } else {
        Profile::Registers16
    }
}

fn mended(profile: Profile, options: Options<'_>) -> Result<Task, RowFault>
    ensures { IfOk result HasSides }
{
    if options.fill || options.boxed {
        return Err(RowFault::Words);
    }
    if options.width.is_some() || options.height.is_some() {
        return Err(RowFault::Words);
    }
    let background = options.background.unwrap_or("0,0,0");
    Ok(Task::Mend {
        profile,
        background: colour_of(background)?,
        showing: options.showing,
        selects: options.selects,
        fitting: fitting_of(options, background)?,
    })
}

/// By default on a white background.
fn differing(options: Options<'_>) -> Result<Task, RowFault>
    ensures { IfOk result HasSides }
{
    let (_, is_plain) = kind_of(Options {
        background: None,
        ..options
    });
    if !is_plain {
        return Err(RowFault::Words);
    }
    let background = colour_of(options.background.unwrap_or("100,100,100"))?;
    Ok(if options.sheet {
        Task::DifferSheet { background }
    } else {
        Task::Differ { background }
    })
}

/// The colour with these percentages of red, green and blue.
fn colour_of(written: &str) -> Result<Colour, RowFault> {
    let mut percentages = written.split(',').map(str::parse::<u8>);
    match (
        percentages.next(),
        percentages.next(),
        percentages.next(),
        percentages.next(),
    ) {
        (Some(Ok(red)), Some(Ok(green)), Some(Ok(blue)), None) => {
            Colour::rgb(red, green, blue).ok_or(RowFault::Words)
        }
        _ => Err(RowFault::Words),
    }
}

fn shown(profile: Profile, options: Options<'_>) -> Result<Task, RowFault>
    ensures { IfOk result HasSides }
{
    match options.on {
        Some(name) => shown_on(named_of(name)?, options),
        None if options.background.is_some() => Err(RowFault::Words),
        None if options.boxed => boxed(profile, options),
        None => sized(profile, options),
    }
}

fn named_of(name: &str) -> Result<Named, RowFault> {
    match name {
        "xterm" => Ok(Named::XTerm),
        "mlterm" => Ok(Named::MlTerm),
        "foot" => Ok(Named::Foot),
        "konsole" => Ok(Named::Konsole),
        _ => Err(RowFault::Words),
    }
}

/// By default on a white background.
fn shown_on(named: Named, options: Options<'_>) -> Result<Task, RowFault>
    ensures { IfOk result HasSides }
{
    if options.wide || options.showing || options.fill || options.selects {
        return Err(RowFault::Words);
    }
    Ok(Task::ShowOn {
        named,
        background: colour_of(options.background.unwrap_or("100,100,100"))?,
        area: area_of(options)?,
        format: FORMAT,
    })
}

fn area_of(options: Options<'_>) -> Result<Area, RowFault>
    ensures { IfOk result HasSidesIn }
{
    if options.boxed {
        return match (options.width, options.height) {
            (None, None) => Ok(Area::Box),
            _ => Err(RowFault::Words),
        };
    }
    let width = side_of(options.width)?;
    let height = side_of(options.height)?;
    Ok(Area::Sides { width, height })
}

fn boxed(profile: Profile, options: Options<'_>) -> Result<Task, RowFault>
    ensures { IfOk result HasSides }
{
    if options.width.is_some() || options.height.is_some() {
        return Err(RowFault::Words);
    }
    Ok(Task::ShowBox {
        profile,
        showing: options.showing,
        fill: options.fill,
        selects: options.selects,
        format: FORMAT,
    })
}

fn sized(profile: Profile, options: Options<'_>) -> Result<Task, RowFault>
    ensures { IfOk result HasSides }
{
    let width = side_of(options.width)?;
    let height = side_of(options.height)?;
    Ok(Task::Show {
        profile,
        showing: options.showing,
        fill: options.fill,
        selects: options.selects,
        width,
        height,
        format: FORMAT,
    })
}

/// The side of a screen, in pixels.
fn side_of(written: Option<&str>) -> Result<u32, RowFault>
    ensures { IfOk result (λ side. IsTrue (is_file_side side)) }
{
    match written.unwrap_or("").parse::<u32>() {
        Ok(side) if side >= 1 && side <= MOST_SCREEN_SIDE => Ok(side),
        _ => Err(RowFault::Words),
    }
}

fn options_of(words: &str) -> Result<Options<'_>, RowFault> {
    let mut options = Options::default();
    let mut awaited = Awaited::Nothing;
    for word in words.split_whitespace() {
        awaited = take_word(&mut options, awaited, word)?;
    }
    match awaited {
        Awaited::Nothing => Ok(options),
        _ => Err(RowFault::Words),
    }
}

/// Takes one argument. Returns the option whose value comes next.
fn take_word<'a>(
    options: &mut Options<'a>,
    awaited: Awaited,
    word: &'a str,
) -> Result<Awaited, RowFault> {
    match (awaited, word) {
        (Awaited::On, _) => options.on = Some(word),
        (Awaited::Background, _) => options.background = Some(word),
        (Awaited::Pad, _) => options.pad = Some(word),
        (Awaited::Width, _) => options.width = Some(word),
        (Awaited::Height, _) => options.height = Some(word),
        (_, "--wide") => options.wide = true,
        (_, "--eight-bit") => options.eight_bit = true,
        (_, "--showing") => options.showing = true,
        (_, "--fill") => options.fill = true,
        (_, "--define-selects") => options.selects = true,
        (_, "--box") => options.boxed = true,
        (_, "--sheet") => options.sheet = true,
        (_, "--on") => return Ok(Awaited::On),
        (_, "--background") => return Ok(Awaited::Background),
        (_, "--pad") => return Ok(Awaited::Pad),
        (_, "--width") => return Ok(Awaited::Width),
        (_, "--height") => return Ok(Awaited::Height),
        _ => return Err(RowFault::Words),
    }
    Ok(Awaited::Nothing)
}
