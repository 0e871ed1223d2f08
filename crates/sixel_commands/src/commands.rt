//! The subcommands and their options, as clap's commands.

ghost use Rattle.std.specs.Prelude.{◌≡◌, IfOk, codes, false};
ghost use Rattle.clap.specs.Walk.{rule_of};
ghost use Rattle.clap.specs.Simple.{app_of, new_app};
ghost use Rattle.clap.specs.declared.builder.command.Command.TheViews.{out-Command as fields_of};
ghost use Rattle.sixel_commands.specs.Commands.{background, checking_app, differ_app, encode_app, explain_app, file};
ghost use Rattle.sixel_commands.specs.Commands.{files, flag, ignore, mend_app, names, on, pad, plain_app, quiet};
ghost use Rattle.sixel_commands.specs.Commands.{render_app, scan_app, show_app, side, sixel_app};

mod help;

use clap::{Arg, ArgAction, Command};
use std::alloc::{AllocError, Global};

/// The program's name, as `--version` prints it.
const NAME: &str = "sixel";

/// The greatest side of a screen, in pixels: that of the definitions, as the contract of `side_arg` says. The one of
/// `sixel_report` would have the commands wait for the proof of nearly all other crates.
pub(crate) const MOST_SCREEN_SIDE: u32 = 4096;

/// What `--version` prints after the program's name.
const VERSION: &str = "1.1.0";

/// Each task is a subcommand, and so is `explain`. An option may be given again, and its last value counts; of the names
/// of terminals all do. `--version` may be given before a subcommand or after it.
pub fn sixel_command<'a>(alloc: Global) -> Result<Command<'a>, AllocError>
    ensures { IfOk result (λ c. app_of c ≡ sixel_app) }
{
    Command::new(alloc, "sixel")
        .about(
            "Checks, lists, draws, mends and writes sixel pictures, from files or standard input",
        )
        .after_help(help::SIXEL)
        .version(VERSION)
        .propagate_version(true)
        .subcommand_required(true)
        .args_override_self(true)
        .subcommand(list_command(alloc)?)?
        .subcommand(check_command(alloc)?)?
        .subcommand(survey_command(alloc)?)?
        .subcommand(scan_command(alloc)?)?
        .subcommand(render_command(alloc)?)?
        .subcommand(encode_command(alloc)?)?
        .subcommand(show_command(alloc)?)?
        .subcommand(differ_command(alloc)?)?
        .subcommand(mend_command(alloc)?)?
        .subcommand(explain_command(alloc)?)
}

/// A subcommand with its help, and without arguments. Its version is that of `sixel`.
fn task_command<'a>(
    alloc: Global,
    name: &'a str,
    about: &'a str,
    help: &'a str,
) -> Result<Command<'a>, AllocError>
    ensures app { IfOk result (λ c. app_of c ≡ new_app name.entry.now) }
    ensures local { IfOk result (λ c. (fields_of c).has_globals ≡ false) }
{
    Command::new(alloc, name)
        .about(about)
        .after_help(help)
        .display_name(NAME)
}

/// `list`, with an optional file.
pub fn list_command<'a>(alloc: Global) -> Result<Command<'a>, AllocError>
    ensures app { IfOk result (λ c. app_of c ≡ plain_app (codes "list")) }
    ensures local { IfOk result (λ c. (fields_of c).has_globals ≡ false) }
{
    task_command(
        alloc,
        "list",
        "Lists the commands of the picture, one per line",
        help::LIST,
    )?
    .arg(file_arg(alloc))
}

/// `render`, with `--wide`, `--png` and an optional file.
pub fn render_command<'a>(alloc: Global) -> Result<Command<'a>, AllocError>
    ensures app { IfOk result (λ c. app_of c ≡ render_app) }
    ensures local { IfOk result (λ c. (fields_of c).has_globals ≡ false) }
{
    task_command(
        alloc,
        "render",
        "Converts a portable picture to a PPM or a PNG",
        help::RENDER,
    )?
    .arg(wide_arg(alloc))?
    .arg(png_arg(alloc))?
    .arg(file_arg(alloc))
}

/// `encode`, with three options and an optional file.
pub fn encode_command<'a>(alloc: Global) -> Result<Command<'a>, AllocError>
    ensures app { IfOk result (λ c. app_of c ≡ encode_app) }
    ensures local { IfOk result (λ c. (fields_of c).has_globals ≡ false) }
{
    task_command(
        alloc,
        "encode",
        "Converts a PPM to portable sixel text",
        help::ENCODE,
    )?
    .arg(wide_arg(alloc))?
    .arg(names_arg(alloc, FOR_TERMINALS))?
    .arg(pad_arg(
        alloc,
        "With --on: the rows below, in percent, or '#RRGGBB' [default: 0,0,0]",
    ))?
    .arg(file_arg(alloc))
}

/// `explain`, with any number of names, or the words of a line.
pub fn explain_command<'a>(alloc: Global) -> Result<Command<'a>, AllocError>
    ensures app { IfOk result (λ c. app_of c ≡ explain_app) }
    ensures local { IfOk result (λ c. (fields_of c).has_globals ≡ false) }
{
    task_command(
        alloc,
        "explain",
        "Explains rules and refusals by their names, or lists all names",
        help::EXPLAIN,
    )?
    .arg(
        Arg::new(alloc, "name")
            .action(ArgAction::Append)
            .value_name("NAME")
            .help("A name such as Uncovered or FieldCount, or a line that contains one"),
    )
}

/// `check`, with seven options and any number of files.
pub fn check_command<'a>(alloc: Global) -> Result<Command<'a>, AllocError>
    ensures app { IfOk result (λ c. app_of c ≡ checking_app (codes "check")) }
    ensures local { IfOk result (λ c. (fields_of c).has_globals ≡ false) }
{
    checking_command(
        alloc,
        "check",
        "Says whether the picture is portable, or which rule it breaks first",
        help::CHECK,
    )
}

/// `survey`, with the same.
pub fn survey_command<'a>(alloc: Global) -> Result<Command<'a>, AllocError>
    ensures app { IfOk result (λ c. app_of c ≡ checking_app (codes "survey")) }
    ensures local { IfOk result (λ c. (fields_of c).has_globals ≡ false) }
{
    checking_command(
        alloc,
        "survey",
        "Says which rules the picture breaks, how often, and where first",
        help::SURVEY,
    )
}

/// A subcommand that looks for broken rules.
fn checking_command<'a>(
    alloc: Global,
    name: &'a str,
    about: &'a str,
    help: &'a str,
) -> Result<Command<'a>, AllocError>
    ensures app { IfOk result (λ c. app_of c ≡ checking_app name.entry.now) }
    ensures local { IfOk result (λ c. (fields_of c).has_globals ≡ false) }
{
    task_command(alloc, name, about, help)?
        .arg(wide_arg(alloc))?
        .arg(names_arg(alloc, COUNTED_RULES))?
        .arg(ignore_arg(alloc))?
        .arg(quiet_arg(alloc, "Print no result; use the exit status"))?
        .arg(flag_arg(
            alloc,
            "failed",
            "Print only the lines of files that aren't portable",
        ))?
        .arg(json_arg(alloc))?
        .arg(explain_arg(alloc))?
        .arg(files_arg(alloc))
}

/// `scan`, with four options and any number of files.
pub fn scan_command<'a>(alloc: Global) -> Result<Command<'a>, AllocError>
    ensures app { IfOk result (λ c. app_of c ≡ scan_app) }
    ensures local { IfOk result (λ c. (fields_of c).has_globals ≡ false) }
{
    task_command(
        alloc,
        "scan",
        "Checks each picture in what a program writes to a terminal",
        help::SCAN,
    )?
    .arg(wide_arg(alloc))?
    .arg(quiet_arg(alloc, "Leave out the note on wrapped pictures"))?
    .arg(flag_arg(
        alloc,
        "eight-bit",
        "Let the bytes 90 and 9C start and end a picture, too",
    ))?
    .arg(json_arg(alloc))?
    .arg(files_arg(alloc))
}

/// `show`, with eleven options and an optional file.
pub fn show_command<'a>(alloc: Global) -> Result<Command<'a>, AllocError>
    ensures app { IfOk result (λ c. app_of c ≡ show_app) }
    ensures local { IfOk result (λ c. (fields_of c).has_globals ≡ false) }
{
    task_command(
        alloc,
        "show",
        "Draws the picture as one terminal would, and writes its screen",
        help::SHOW,
    )?
    .arg(wide_arg(alloc))?
    .arg(quiet_arg(alloc, "Leave out the note on a register above 15"))?
    .arg(flag_arg(
        alloc,
        "showing",
        "Show each pixel in the final colour of its register",
    ))?
    .arg(flag_arg(alloc, "fill", "Fill the declared box with register 0"))?
    .arg(flag_arg(
        alloc,
        "define-selects",
        "Let a colour definition also select its register",
    ))?
    .arg(side_arg(
        alloc,
        "width",
        "800",
        "The screen's width in pixels, 1 to 4096",
    ))?
    .arg(side_arg(
        alloc,
        "height",
        "480",
        "The screen's height in pixels, 1 to 4096",
    ))?
    .arg(flag_arg(alloc, "box", "Make the screen as large as the declared box"))?
    .arg(on_arg(
        alloc,
        "NAME",
        "Draw as this terminal does: xterm, mlterm, foot or konsole",
    ))?
    .arg(background_arg(
        alloc,
        "100,100,100",
        "With --on: the screen before the picture, in percent, '#RRGGBB' or a name",
    ))?
    .arg(png_arg(alloc))?
    .arg(file_arg(alloc))
}

/// `differ`, with two options and any number of files.
pub fn differ_command<'a>(alloc: Global) -> Result<Command<'a>, AllocError>
    ensures app { IfOk result (λ c. app_of c ≡ differ_app) }
    ensures local { IfOk result (λ c. (fields_of c).has_globals ≡ false) }
{
    task_command(
        alloc,
        "differ",
        "Says which of four terminals show the picture differently, and where",
        help::DIFFER,
    )?
    .arg(background_arg(
        alloc,
        "100,100,100",
        "The screens before the picture, in percent, '#RRGGBB' or a name",
    ))?
    .arg(flag_arg(
        alloc,
        "sheet",
        "Write the four screens side by side, as a PPM, instead",
    ))?
    .arg(files_arg(alloc))
}

/// `mend`, with seven options and an optional file.
pub fn mend_command<'a>(alloc: Global) -> Result<Command<'a>, AllocError>
    ensures app { IfOk result (λ c. app_of c ≡ mend_app) }
    ensures local { IfOk result (λ c. (fields_of c).has_globals ≡ false) }
{
    task_command(
        alloc,
        "mend",
        "Makes a portable picture of what one terminal shows of a broken one",
        help::MEND,
    )?
    .arg(wide_arg(alloc))?
    .arg(quiet_arg(
        alloc,
        "Leave out the note on pixels in the background's colour",
    ))?
    .arg(background_arg(
        alloc,
        "0,0,0",
        "What isn't painted: red, green and blue in percent, '#RRGGBB' or a name",
    ))?
    .arg(flag_arg(
        alloc,
        "showing",
        "Show each pixel in the final colour of its register",
    ))?
    .arg(flag_arg(
        alloc,
        "define-selects",
        "Let a colour definition also select its register",
    ))?
    .arg(names_arg(alloc, FOR_TERMINALS))?
    .arg(pad_arg(
        alloc,
        "With --on: the rows below [default: the colour of --background]",
    ))?
    .arg(file_arg(alloc))
}

/// `--name`, without a value.
fn flag_arg<'a>(alloc: Global, name: &'a str, help: &'a str) -> Arg<'a>
    ensures rule { rule_of result ≡ flag name.entry.now }
    ensures local { result.global ≡ false }
{
    Arg::new(alloc, name)
        .long(name)
        .action(ArgAction::SetTrue)
        .help(help)
}

/// `--name N`, with a default.
fn side_arg<'a>(alloc: Global, name: &'a str, fallback: &'a str, help: &'a str) -> Arg<'a>
    ensures rule { rule_of result ≡ side name.entry.now fallback.entry.now }
    ensures local { result.global ≡ false }
{
    Arg::new(alloc, name)
        .long(name)
        .value_name("N")
        .value_parser(clap::value_parser!(u32).range(1..=MOST_SCREEN_SIDE as i64))
        .default_value(fallback)
        .help(help)
}

/// `--on`, with this name for its value in the help.
fn on_arg<'a>(alloc: Global, value: &'a str, help: &'a str) -> Arg<'a>
    ensures rule { rule_of result ≡ on }
    ensures local { result.global ≡ false }
{
    Arg::new(alloc, "on")
        .long("on")
        .value_name(value)
        .help(help)
}

/// What `--on` does for `check` and `survey`.
const COUNTED_RULES: &str =
    "Count the rules of these terminals, too: xterm, mlterm, foot, konsole or all";

/// What it does for `encode` and `mend`.
const FOR_TERMINALS: &str = "Write what these terminals show: xterm, mlterm, foot, konsole or all";

/// `--on NAMES`, of several terminals: the values of all its uses.
fn names_arg<'a>(alloc: Global, help: &'a str) -> Arg<'a>
    ensures rule { rule_of result ≡ names }
    ensures local { result.global ≡ false }
{
    on_arg(alloc, "NAMES", help).action(ArgAction::Append)
}

/// `--pad COLOUR`.
fn pad_arg<'a>(alloc: Global, help: &'a str) -> Arg<'a>
    ensures rule { rule_of result ≡ pad }
    ensures local { result.global ≡ false }
{
    Arg::new(alloc, "pad")
        .long("pad")
        .value_name("COLOUR")
        .help(help)
}

/// `--ignore RULES`, of rules of named terminals that don't count: the values of all its uses.
fn ignore_arg<'a>(alloc: Global) -> Arg<'a>
    ensures rule { rule_of result ≡ ignore }
    ensures local { result.global ≡ false }
{
    Arg::new(alloc, "ignore")
        .long("ignore")
        .value_name("RULES")
        .help("With --on: leave out these rules of terminals, such as Rows,Past")
        .action(ArgAction::Append)
}

/// `--background COLOUR`, with a default.
fn background_arg<'a>(alloc: Global, fallback: &'a str, help: &'a str) -> Arg<'a>
    ensures rule { rule_of result ≡ background fallback.entry.now }
    ensures local { result.global ≡ false }
{
    Arg::new(alloc, "background")
        .long("background")
        .value_name("COLOUR")
        .default_value(fallback)
        .help(help)
}

/// `--wide`, which selects the profile of 256 registers.
fn wide_arg<'a>(alloc: Global) -> Arg<'a>
    ensures rule { rule_of result ≡ flag (codes "wide") }
    ensures local { result.global ≡ false }
{
    flag_arg(alloc, "wide", "Use 256 colour registers instead of 16")
}

/// `--png`.
fn png_arg<'a>(alloc: Global) -> Arg<'a>
    ensures rule { rule_of result ≡ flag (codes "png") }
    ensures local { result.global ≡ false }
{
    flag_arg(alloc, "png", "Write a PNG instead of a PPM")
}

/// `--json`.
fn json_arg<'a>(alloc: Global) -> Arg<'a>
    ensures rule { rule_of result ≡ flag (codes "json") }
    ensures local { result.global ≡ false }
{
    flag_arg(
        alloc,
        "json",
        "Print objects of JSON, one a line, also for refusals",
    )
}

/// `--explain`.
fn explain_arg<'a>(alloc: Global) -> Arg<'a>
    ensures rule { rule_of result ≡ flag (codes "explain") }
    ensures local { result.global ≡ false }
{
    flag_arg(
        alloc,
        "explain",
        "End with a hint on each rule or refusal, also into a pipe",
    )
}

/// `-q` or `--quiet`.
fn quiet_arg<'a>(alloc: Global, help: &'a str) -> Arg<'a>
    ensures rule { rule_of result ≡ quiet }
    ensures local { result.global ≡ false }
{
    flag_arg(alloc, "quiet", help).short('q')
}

/// `FILE`, optional.
fn file_arg<'a>(alloc: Global) -> Arg<'a>
    ensures rule { rule_of result ≡ file }
    ensures local { result.global ≡ false }
{
    Arg::new(alloc, "FILE").help("The file to read; without it, or for `-`, standard input")
}

/// `FILE`, any number of times.
fn files_arg<'a>(alloc: Global) -> Arg<'a>
    ensures rule { rule_of result ≡ files }
    ensures local { result.global ≡ false }
{
    Arg::new(alloc, "FILE").action(ArgAction::Append).help(
        "Files to read in turn; without any, or for `-`, standard input",
    )
}
