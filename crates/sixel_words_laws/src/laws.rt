//! Laws about the definitions. Each function's contract is the law.

ghost use Rattle.std.specs.Prelude.{◌≡◌, ◌∷◌, ◌||◌, [], All, Contains, List, codes, false, if◌then◌else◌, map, true};
ghost use Rattle.sixel_model.specs.declared.colour.Parts.TheVariants.{Rgb};
ghost use Rattle.sixel_model.specs.declared.profile.Profile.TheVariants.{Registers16, Registers256};
ghost use Rattle.clap.specs.Takes.{takes};
ghost use Rattle.clap.specs.declared.error.kind.ErrorKind.TheVariants.{DisplayHelp, DisplayVersion, MissingSubcommand};
ghost use Rattle.clap.specs.declared.error.kind.ErrorKind.TheVariants.{UnknownArgument, ValueValidation};
ghost use Rattle.sixel_emulator_rules.specs.Asked.{no_rules};
ghost use Rattle.sixel_explain.specs.declared.explanations.Topic.{Topic};
ghost use Rattle.sixel_named_terminals.specs.declared.named.Named.TheVariants.{Konsole, XTerm};
ghost use Rattle.sixel_report.specs.declared.task.Area.TheVariants.{Box, Sides};
ghost use Rattle.sixel_report.specs.declared.task.PictureFormat.TheVariants.{Ppm, Png};
ghost use Rattle.sixel_report.specs.declared.task.Task.{Task};
ghost use Rattle.sixel_report.specs.declared.task.Task.TheVariants.{Check, List as Listing, Mend, Render, Scan, Show};
ghost use Rattle.sixel_report.specs.declared.task.Task.TheVariants.{Differ, DifferSheet, ShowBox, ShowOn, Survey};
ghost use Rattle.sixel_explain.specs.Explanations.{topic_name};
ghost use Rattle.sixel_report.specs.Texts.{Text};
ghost use Rattle.sixel_report.specs.declared.wanted_lines.Lines.TheVariants.{Json, Nothing, Plain};
ghost use Rattle.sixel_words.specs.Words.{AsksFor, IsRequestOf, IsTaskOf, all_terminals, is_among, kinds_of};
ghost use Rattle.sixel_words.specs.Words.{no_terminals};
ghost use Rattle.sixel_commands.specs.Commands.{sixel_app, subcommands};
ghost use Rattle.sixel_words_laws.specs.Laws.{check_flags, for_none};

/// The command line `sixel list` is accepted, and asks for the task `List`.
pub fn the_word_list_gives_a_list()
    ensures taken { (program : Text) → takes sixel_app (program ∷ codes "list" ∷ []) ≡ true }
    ensures task { (program : Text) → IsTaskOf (program ∷ codes "list" ∷ []) Listing }
{}

/// `sixel survey` is accepted, and surveys with 16 registers. So it is with `--wide` and over files in turn, and has 256.
pub fn the_word_survey_gives_a_survey()
    ensures taken { (program : Text) → takes sixel_app (program ∷ codes "survey" ∷ []) ≡ true }
    ensures task { (program : Text) → IsTaskOf (program ∷ codes "survey" ∷ []) (Survey Registers16 no_terminals) }
    ensures files_taken { (program : Text) →
        takes sixel_app (program ∷ codes "survey" ∷ codes "--wide" ∷ codes "a" ∷ codes "b" ∷ []) ≡ true }
    ensures files { (program : Text) →
        IsRequestOf (program ∷ codes "survey" ∷ codes "--wide" ∷ codes "a" ∷ codes "b" ∷ [])
        (Survey Registers256 no_terminals) (Plain false) false (codes "a" ∷ codes "b" ∷ []) }
{}

/// `check --on` and `survey --on` name terminals whose rules count, in any case of letters: a check of `xterm,Foot,xterm`
/// is for these two, and a survey of `ALL` for the four. Several values name all that one of them names, so `--on xterm
/// --on foot` is for both. There is no task if a part between commas is no name, for an empty value, for `all` with
/// another name, and if only one of several values is wrong.
pub fn the_option_on_names_terminals()
    ensures taken { (program : Text) →
        takes sixel_app (program ∷ codes "check" ∷ codes "--on" ∷ codes "xterm,Foot,xterm" ∷ []) ≡ true }
    ensures several { (program : Text) →
        IsTaskOf (program ∷ codes "check" ∷ codes "--on" ∷ codes "xterm,Foot,xterm" ∷ [])
        (Check Registers16 (record no_terminals { xterm = true; foot = true })) }
    ensures every { (program : Text) → IsTaskOf (program ∷ codes "survey" ∷ codes "--on" ∷ codes "ALL" ∷ [])
        (Survey Registers16 all_terminals) }
    ensures both_taken { (program : Text) → takes sixel_app (program ∷ codes "check" ∷ codes "--on" ∷ codes "xterm"
        ∷ codes "--on" ∷ codes "foot" ∷ []) ≡ true }
    ensures both { (program : Text) →
        IsTaskOf (program ∷ codes "check" ∷ codes "--on" ∷ codes "xterm" ∷ codes "--on" ∷ codes "foot" ∷ [])
        (Check Registers16 (record no_terminals { xterm = true; foot = true })) }
    ensures one_is_wrong { (program : Text) (task : Task) → IsTaskOf
        (program ∷ codes "check" ∷ codes "--on" ∷ codes "kitty" ∷ codes "--on" ∷ codes "konsole" ∷ []) task → ⊥ }
    ensures no_other_name { (program : Text) (task : Task) →
        IsTaskOf (program ∷ codes "check" ∷ codes "--on" ∷ codes "xterm,kitty" ∷ []) task → ⊥ }
    ensures no_empty_name { (program : Text) (task : Task) →
        IsTaskOf (program ∷ codes "survey" ∷ codes "--on" ∷ codes "xterm," ∷ []) task → ⊥ }
    ensures no_value { (program : Text) (task : Task) →
        IsTaskOf (program ∷ codes "check" ∷ codes "--on" ∷ [] ∷ []) task → ⊥ }
    ensures no_more_than_all { (program : Text) (task : Task) →
        IsTaskOf (program ∷ codes "check" ∷ codes "--on" ∷ codes "all,foot" ∷ []) task → ⊥ }
{}

/// `--ignore` beside `--on` leaves out the rules that it names, in any case of letters: all that one of its values names.
/// There is no task without `--on`, for a rule of portable pictures, and if a part between commas is no name of a rule.
pub fn the_option_ignore_leaves_out_rules()
    ensures taken { (program : Text) → takes sixel_app (program ∷ codes "check" ∷ codes "--on" ∷ codes "all"
        ∷ codes "--ignore" ∷ codes "Rows" ∷ []) ≡ true }
    ensures one { (program : Text) → IsTaskOf
        (program ∷ codes "check" ∷ codes "--on" ∷ codes "all" ∷ codes "--ignore" ∷ codes "Rows" ∷ [])
        (Check Registers16 (record all_terminals { ignored = record no_rules { rows = true } })) }
    ensures several { (program : Text) → IsTaskOf (program ∷ codes "survey" ∷ codes "--ignore" ∷ codes "Hue" ∷ codes "--on"
        ∷ codes "xterm" ∷ codes "--ignore" ∷ codes "rows,BARE" ∷ [])
        (Survey Registers16 (record no_terminals {
          xterm = true;
          ignored = record no_rules { rows = true; hue = true; bare = true };
        })) }
    ensures not_alone { (program : Text) (task : Task) →
        IsTaskOf (program ∷ codes "check" ∷ codes "--ignore" ∷ codes "Rows" ∷ []) task → ⊥ }
    ensures no_portable_rule { (program : Text) (task : Task) → IsTaskOf (program ∷ codes "check" ∷ codes "--on"
        ∷ codes "all" ∷ codes "--ignore" ∷ codes "Ratio" ∷ []) task → ⊥ }
    ensures no_other_name { (program : Text) (task : Task) → IsTaskOf (program ∷ codes "survey" ∷ codes "--on"
        ∷ codes "all" ∷ codes "--ignore" ∷ codes "Rows," ∷ []) task → ⊥ }
{}

/// `sixel scan` is accepted, and scans with 16 registers and without 8-bit controls. So it is with `--wide` and
/// `--eight-bit` and over files in turn, and then has 256 and counts these controls.
pub fn the_word_scan_gives_a_scan()
    ensures taken { (program : Text) → takes sixel_app (program ∷ codes "scan" ∷ []) ≡ true }
    ensures task { (program : Text) → IsTaskOf (program ∷ codes "scan" ∷ []) (Scan Registers16 false) }
    ensures files_taken { (program : Text) → takes sixel_app (program ∷ codes "scan" ∷ codes "--wide"
        ∷ codes "--eight-bit" ∷ codes "a" ∷ codes "b" ∷ []) ≡ true }
    ensures files { (program : Text) →
        IsRequestOf (program ∷ codes "scan" ∷ codes "--wide" ∷ codes "--eight-bit" ∷ codes "a" ∷ codes "b" ∷ [])
        (Scan Registers256 true) (Plain false) false (codes "a" ∷ codes "b" ∷ []) }
{}

/// `sixel mend` is accepted, and mends without any flag, with 16 registers and a black background. So is `--background`,
/// whose colour is red, green and blue: three percentages, `#` and three samples, or a name. So is `-q`, for no note.
pub fn the_word_mend_gives_a_mend()
    ensures taken { (program : Text) → takes sixel_app (program ∷ codes "mend" ∷ []) ≡ true }
    ensures task { (program : Text) →
        IsTaskOf (program ∷ codes "mend" ∷ []) (Mend Registers16 (Rgb 0 0 0) false false (for_none (Rgb 0 0 0))) }
    ensures coloured_taken { (program : Text) → takes sixel_app (program ∷ codes "mend" ∷ codes "--showing"
        ∷ codes "--background" ∷ codes "100,50,0" ∷ []) ≡ true }
    ensures coloured { (program : Text) →
        IsTaskOf (program ∷ codes "mend" ∷ codes "--showing" ∷ codes "--background" ∷ codes "100,50,0" ∷ [])
        (Mend Registers16 (Rgb 100 50 0) true false (for_none (Rgb 100 50 0))) }
    ensures sampled_taken { (program : Text) →
        takes sixel_app (program ∷ codes "mend" ∷ codes "--background" ∷ codes "#Ff8002" ∷ []) ≡ true }
    ensures sampled { (program : Text) →
        IsTaskOf (program ∷ codes "mend" ∷ codes "--background" ∷ codes "#Ff8002" ∷ [])
        (Mend Registers16 (Rgb 100 50 1) false false (for_none (Rgb 100 50 1))) }
    ensures called { (program : Text) →
        IsTaskOf (program ∷ codes "mend" ∷ codes "--background" ∷ codes "Navy" ∷ [])
        (Mend Registers16 (Rgb 0 0 50) false false (for_none (Rgb 0 0 50))) }
    ensures quiet { (program : Text) → IsRequestOf (program ∷ codes "mend" ∷ codes "-q" ∷ [])
        (Mend Registers16 (Rgb 0 0 0) false false (for_none (Rgb 0 0 0))) (Nothing false) false [] }
{}

/// `sixel show` is accepted, and shows without any flag, with 16 registers on a screen of 800 by 480 pixels.
pub fn the_word_show_gives_a_show()
    ensures taken { (program : Text) → takes sixel_app (program ∷ codes "show" ∷ []) ≡ true }
    ensures task { (program : Text) →
        IsTaskOf (program ∷ codes "show" ∷ []) (Show Registers16 false false false 800 480 Ppm) }
{}

/// `sixel show --box` is accepted, and shows without any other flag, with 16 registers on a screen of the size of the
/// declared box. With `--width 800` after it, or `--height 480` before it, there is no task.
pub fn the_words_show_box_give_a_box()
    ensures taken { (program : Text) → takes sixel_app (program ∷ codes "show" ∷ codes "--box" ∷ []) ≡ true }
    ensures task { (program : Text) →
        IsTaskOf (program ∷ codes "show" ∷ codes "--box" ∷ []) (ShowBox Registers16 false false false Ppm) }
    ensures no_width { (program : Text) (task : Task) →
        IsTaskOf (program ∷ codes "show" ∷ codes "--box" ∷ codes "--width" ∷ codes "800" ∷ []) task → ⊥ }
    ensures no_height { (program : Text) (task : Task) →
        IsTaskOf (program ∷ codes "show" ∷ codes "--height" ∷ codes "480" ∷ codes "--box" ∷ []) task → ⊥ }
{}

/// `sixel show --on xterm --box` is accepted, and shows xterm's white screen, as large as the declared box. `--background`
/// gives another colour, and without `--box` the screen has 800 by 480 pixels. The name is taken in any case of letters.
/// There is no task with `--wide`, for another name, for two names, and with `--background` alone.
pub fn the_words_show_on_name_a_terminal()
    ensures taken { (program : Text) →
        takes sixel_app (program ∷ codes "show" ∷ codes "--on" ∷ codes "xterm" ∷ codes "--box" ∷ []) ≡ true }
    ensures task { (program : Text) →
        IsTaskOf (program ∷ codes "show" ∷ codes "--on" ∷ codes "xterm" ∷ codes "--box" ∷ [])
        (ShowOn XTerm (Rgb 100 100 100) Box Ppm) }
    ensures coloured { (program : Text) → IsTaskOf (program ∷ codes "show" ∷ codes "--background" ∷ codes "100,50,0"
        ∷ codes "--on" ∷ codes "konsole" ∷ []) (ShowOn Konsole (Rgb 100 50 0) (Sides 800 480) Ppm) }
    ensures any_case { (program : Text) →
        IsTaskOf (program ∷ codes "show" ∷ codes "--on" ∷ codes "XTerm" ∷ codes "--box" ∷ [])
        (ShowOn XTerm (Rgb 100 100 100) Box Ppm) }
    ensures no_wide { (program : Text) (task : Task) →
        IsTaskOf (program ∷ codes "show" ∷ codes "--on" ∷ codes "foot" ∷ codes "--wide" ∷ []) task → ⊥ }
    ensures no_other_name { (program : Text) (task : Task) →
        IsTaskOf (program ∷ codes "show" ∷ codes "--on" ∷ codes "kitty" ∷ []) task → ⊥ }
    ensures no_two_names { (program : Text) (task : Task) →
        IsTaskOf (program ∷ codes "show" ∷ codes "--on" ∷ codes "xterm,foot" ∷ []) task → ⊥ }
    ensures no_background { (program : Text) (task : Task) →
        IsTaskOf (program ∷ codes "show" ∷ codes "--background" ∷ codes "100,50,0" ∷ []) task → ⊥ }
{}

/// `sixel render` writes a PPM, and with `--png` a PNG. So does `show`, with `--box` and with `--on`. clap refuses
/// `encode --png`.
pub fn the_word_png_asks_for_a_png()
    ensures taken { (program : Text) → takes sixel_app (program ∷ codes "render" ∷ codes "--png" ∷ []) ≡ true }
    ensures plain { (program : Text) → IsTaskOf (program ∷ codes "render" ∷ []) (Render Registers16 Ppm) }
    ensures render { (program : Text) →
        IsTaskOf (program ∷ codes "render" ∷ codes "--png" ∷ []) (Render Registers16 Png) }
    ensures boxed { (program : Text) → IsTaskOf (program ∷ codes "show" ∷ codes "--png" ∷ codes "--box" ∷ [])
        (ShowBox Registers16 false false false Png) }
    ensures named { (program : Text) →
        IsTaskOf (program ∷ codes "show" ∷ codes "--on" ∷ codes "konsole" ∷ codes "--png" ∷ [])
        (ShowOn Konsole (Rgb 100 100 100) (Sides 800 480) Png) }
    ensures no_encode { (program : Text) →
        kinds_of (program ∷ codes "encode" ∷ codes "--png" ∷ []) ≡ UnknownArgument ∷ [] }
{}

/// `sixel differ` is accepted, and compares white screens. `--background` gives another colour, and it takes several files.
/// `--sheet` asks for the screens themselves, of one file; with two files there is no task.
pub fn the_word_differ_gives_a_differ()
    ensures taken { (program : Text) → takes sixel_app (program ∷ codes "differ" ∷ []) ≡ true }
    ensures task { (program : Text) → IsTaskOf (program ∷ codes "differ" ∷ []) (Differ (Rgb 100 100 100)) }
    ensures files_taken { (program : Text) → takes sixel_app (program ∷ codes "differ" ∷ codes "--background"
        ∷ codes "100,50,0" ∷ codes "a" ∷ codes "b" ∷ []) ≡ true }
    ensures files { (program : Text) → IsRequestOf (program ∷ codes "differ" ∷ codes "--background"
        ∷ codes "100,50,0" ∷ codes "a" ∷ codes "b" ∷ [])
        (Differ (Rgb 100 50 0)) (Plain false) false (codes "a" ∷ codes "b" ∷ []) }
    ensures sheet_taken { (program : Text) →
        takes sixel_app (program ∷ codes "differ" ∷ codes "--sheet" ∷ codes "a" ∷ []) ≡ true }
    ensures sheet { (program : Text) → IsRequestOf (program ∷ codes "differ" ∷ codes "--sheet" ∷ codes "a" ∷ [])
        (DifferSheet (Rgb 100 100 100)) (Plain false) false (codes "a" ∷ []) }
    ensures no_sheet { (program : Text) (task : Task) →
        IsTaskOf (program ∷ codes "differ" ∷ codes "--sheet" ∷ codes "a" ∷ codes "b" ∷ []) task → ⊥ }
{}

/// clap finds that the arguments `--help`, `-h`, and `--help` after the name of each subcommand ask for help, and that
/// `--version`, `-V`, and `--version` after the name of each subcommand ask for the version.
pub fn the_word_help_asks_for_help()
    ensures long { (program : Text) → kinds_of (program ∷ codes "--help" ∷ []) ≡ DisplayHelp ∷ [] }
    ensures short { (program : Text) → kinds_of (program ∷ codes "-h" ∷ []) ≡ DisplayHelp ∷ [] }
    ensures below { (program : Text) → map (λ name. kinds_of (program ∷ name ∷ codes "--help" ∷ [])) subcommands
        ≡ map (λ name. DisplayHelp ∷ []) subcommands }
    ensures version { (program : Text) → kinds_of (program ∷ codes "--version" ∷ []) ≡ DisplayVersion ∷ [] }
    ensures short_version { (program : Text) → kinds_of (program ∷ codes "-V" ∷ []) ≡ DisplayVersion ∷ [] }
    ensures version_below { (program : Text) →
        map (λ name. kinds_of (program ∷ name ∷ codes "--version" ∷ [])) subcommands
        ≡ map (λ name. DisplayVersion ∷ []) subcommands }
{}

/// Without arguments, with an unknown option, with a side of 0 and with a second file of a task that reads one, clap
/// finds a usage error and no request for help. `list --wide` is refused, although it names the task `List`.
pub fn wrong_words_ask_for_no_help()
    ensures none { (program : Text) → kinds_of (program ∷ []) ≡ MissingSubcommand ∷ [] }
    ensures unknown { (program : Text) →
        kinds_of (program ∷ codes "list" ∷ codes "--wide" ∷ []) ≡ UnknownArgument ∷ [] }
    ensures named { (program : Text) →
        IsTaskOf (program ∷ codes "list" ∷ codes "--wide" ∷ []) Listing }
    ensures side { (program : Text) →
        kinds_of (program ∷ codes "show" ∷ codes "--width" ∷ codes "0" ∷ []) ≡ ValueValidation ∷ [] }
    ensures second_file { (program : Text) →
        kinds_of (program ∷ codes "mend" ∷ codes "a" ∷ codes "b" ∷ []) ≡ UnknownArgument ∷ [] }
{}

/// A check takes its flags in any order and as often as they are given. It has the profile of 256 registers exactly if
/// `--wide` is among them, and it is quiet exactly if `-q` or `--quiet` is. Of a number that is given again, as in
/// `show --width 3 --width 2`, the last counts.
pub fn an_option_may_come_again()
    ensures taken { (program : Text) (flags : List Text) → All (Contains check_flags) flags →
        takes sixel_app (program ∷ codes "check" ∷ flags) ≡ true }
    ensures request { (program : Text) (flags : List Text) → All (Contains check_flags) flags →
        IsRequestOf (program ∷ codes "check" ∷ flags)
        (Check (if is_among flags (codes "--wide") then Registers256 else Registers16) no_terminals)
        (if is_among flags (codes "-q") || is_among flags (codes "--quiet") then Nothing false else Plain false)
        false [] }
    ensures number_taken { (program : Text) → takes sixel_app (program ∷ codes "show" ∷ codes "--width" ∷ codes "3"
        ∷ codes "--width" ∷ codes "2" ∷ []) ≡ true }
    ensures number { (program : Text) → IsTaskOf (program ∷ codes "show" ∷ codes "--width" ∷ codes "3"
        ∷ codes "--width" ∷ codes "2" ∷ []) (Show Registers16 false false false 2 480 Ppm) }
{}

/// `--failed` asks a check for the lines of failures, and `--json` a check, a survey or a scan for JSON. `-q` asks for no
/// lines, whatever else is asked for; a scan or a show with it has no note, and the lines of a scan stay as they are. `--explain` asks a check or a survey for
/// hints.
pub fn options_ask_for_lines()
    ensures failed { (program : Text) → IsRequestOf (program ∷ codes "check" ∷ codes "--failed" ∷ codes "a" ∷ [])
        (Check Registers16 no_terminals) (Plain true) false (codes "a" ∷ []) }
    ensures check { (program : Text) → IsRequestOf (program ∷ codes "check" ∷ codes "--json" ∷ codes "a" ∷ [])
        (Check Registers16 no_terminals) (Json false) false (codes "a" ∷ []) }
    ensures survey { (program : Text) → IsRequestOf (program ∷ codes "survey" ∷ codes "--json" ∷ [])
        (Survey Registers16 no_terminals) (Json false) false [] }
    ensures scan { (program : Text) → IsRequestOf (program ∷ codes "scan" ∷ codes "--json" ∷ [])
        (Scan Registers16 false) (Json false) false [] }
    ensures both { (program : Text) →
        IsRequestOf (program ∷ codes "check" ∷ codes "--json" ∷ codes "--failed" ∷ [])
        (Check Registers16 no_terminals) (Json true) false [] }
    ensures quiet { (program : Text) →
        IsRequestOf (program ∷ codes "check" ∷ codes "--json" ∷ codes "-q" ∷ codes "--failed" ∷ [])
        (Check Registers16 no_terminals) (Nothing true) false [] }
    ensures quiet_scan { (program : Text) →
        IsRequestOf (program ∷ codes "scan" ∷ codes "-q" ∷ codes "--json" ∷ codes "a" ∷ [])
        (Scan Registers16 false) (Nothing true) false (codes "a" ∷ []) }
    ensures quiet_box { (program : Text) → IsRequestOf (program ∷ codes "show" ∷ codes "--box" ∷ codes "--quiet" ∷ [])
        (ShowBox Registers16 false false false Ppm) (Nothing false) false [] }
    ensures explained { (program : Text) → IsRequestOf (program ∷ codes "check" ∷ codes "--explain" ∷ [])
        (Check Registers16 no_terminals) (Plain false) true [] }
    ensures survey_explained { (program : Text) → IsRequestOf (program ∷ codes "survey" ∷ codes "--explain" ∷ [])
        (Survey Registers16 no_terminals) (Plain false) true [] }
    ensures taken { (program : Text) → takes sixel_app (program ∷ codes "check" ∷ codes "--json" ∷ codes "-q"
        ∷ codes "--failed" ∷ codes "--explain" ∷ []) ≡ true }
{}

/// `sixel explain` is accepted, and asks for the list of names.
pub fn the_word_explain_asks_for_the_list()
    ensures taken { (program : Text) → takes sixel_app (program ∷ codes "explain" ∷ []) ≡ true }
    ensures asked { (program : Text) → AsksFor (program ∷ codes "explain" ∷ []) [] }
{}

/// `sixel explain NAME` is accepted for each listed name, and asks for its explanation.
pub fn each_name_can_be_asked_for()
    ensures taken { (program : Text) (topic : Topic) →
        takes sixel_app (program ∷ codes "explain" ∷ topic_name topic ∷ []) ≡ true }
    ensures asked { (program : Text) (topic : Topic) →
        AsksFor (program ∷ codes "explain" ∷ topic_name topic ∷ []) (topic_name topic ∷ []) }
{}

/// `sixel explain` takes several names, and asks for their explanations in their order. If one of the words is no name,
/// wherever it is, it asks for nothing; a line asks for its last name.
pub fn the_word_explain_takes_several_names()
    ensures taken { (program : Text) →
        takes sixel_app (program ∷ codes "explain" ∷ codes "Ratio" ∷ codes "boxsize" ∷ []) ≡ true }
    ensures asked { (program : Text) →
        AsksFor (program ∷ codes "explain" ∷ codes "Ratio" ∷ codes "boxsize" ∷ codes "Ratio" ∷ [])
        (codes "Ratio" ∷ codes "BoxSize" ∷ codes "Ratio" ∷ []) }
    ensures unknown_last { (program : Text) (names : List Text) →
        AsksFor (program ∷ codes "explain" ∷ codes "Ratio" ∷ codes "plot" ∷ []) names → ⊥ }
    ensures unknown_first { (program : Text) (names : List Text) →
        AsksFor (program ∷ codes "explain" ∷ codes "plot" ∷ codes "Ratio" ∷ []) names → ⊥ }
    ensures line { (program : Text) →
        AsksFor (program ∷ codes "explain" ∷ codes "Ratio" ∷ codes "plot:" ∷ codes "BoxSize" ∷ [])
        (codes "BoxSize" ∷ []) }
{}
