//! The explanation of each rule that a named terminal asks for. docs/RULES.md has the same text.

ghost use Rattle.std.specs.Prelude.{◌≡◌, IfSome, IsNone};
ghost use Rattle.std.specs.Io.{StartsWith};
ghost use Rattle.std.specs.Str.{str_to_ascii_lowercase};
ghost use Rattle.sixel_emulator_rules.specs.Names.{name_of};
ghost use Rattle.sixel_emulator_rules.specs.declared.rule.AskedRule.{AskedRule as AnAskedRule};
ghost use Rattle.sixel_explain.specs.declared.explanations.Topic.TheVariants as topic;
ghost use Rattle.sixel_explain.specs.Explanations.{first_line};

use sixel_emulator_rules::AskedRule;

/// The rule whose name this is in small letters.
pub fn asked_rule_named(name: &str) -> Option<AskedRule>
    ensures found { IfSome result (λ rule. str_to_ascii_lowercase (name_of rule) ≡ name.now) }
    ensures none { IsNone result → (rule : AnAskedRule) → str_to_ascii_lowercase (name_of rule) ≡ name.now → ⊥ }
{
    match name {
        "rasterlate" => Some(AskedRule::RasterLate),
        "dropped" => Some(AskedRule::Dropped),
        "stale" => Some(AskedRule::Stale),
        "large" => Some(AskedRule::Large),
        "rows" => Some(AskedRule::Rows),
        "past" => Some(AskedRule::Past),
        "hue" => Some(AskedRule::Hue),
        "far" => Some(AskedRule::Far),
        "introducer" => Some(AskedRule::Introducer),
        "bare" => Some(AskedRule::Bare),
        "spaceafter" => Some(AskedRule::SpaceAfter),
        _ => None,
    }
}

/// Which terminal asks for the rule, what breaks it, what the terminal does then, a string that breaks it, how to fix
/// it, and what `mend` does with it.
pub fn of_asked_rule(rule: AskedRule) -> &'static str
    ensures { StartsWith result.now (first_line (topic.Asked rule)) }
{
    match rule {
        AskedRule::RasterLate => RASTER_LATE,
        AskedRule::Dropped => DROPPED,
        AskedRule::Stale => STALE,
        AskedRule::Large => LARGE,
        AskedRule::Rows => ROWS,
        AskedRule::Past => PAST,
        AskedRule::Hue => HUE,
        AskedRule::Far => FAR,
        AskedRule::Introducer => INTRODUCER,
        AskedRule::Bare => BARE,
        AskedRule::SpaceAfter => SPACE_AFTER,
    }
}

const RASTER_LATE: &str = "RasterLate: raster attributes after a selection or a definition

Broken on konsole by the first raster attributes, if a selection or a definition
comes before them. konsole ignores such raster attributes. It fills at least 30
columns with register 0, over what is right of the box.

String: ESC P q #0;2;0;0;0\"1;1;1;6#0~ ESC \\
Output of check --on konsole: broken RasterLate 13

Fix: write raster attributes right after the introducer, as sixel mend does.
";

const DROPPED: &str = "Dropped: a return right after a selection, definition or raster attributes

Broken on konsole by a return or a new line right after a selection, a
definition or raster attributes, also with a line feed or a space between.
konsole drops the command before the return. In this string the definition has
no effect, and the pixels aren't red.

String: ESC P q \"1;1;1;6#1;2;100;0;0$#1~ ESC \\
Output of check --on konsole: broken Dropped 23

Fix: write a selection after each definition and after raster attributes, and
sixels after the selection, as sixel mend does.
";

const STALE: &str = "Stale: painting in a colour that came after the selection

Broken on foot by a command that paints in a known register whose colour has
changed since a register was last selected: by a first definition, or by one
with another colour. foot paints in the colour that the register had when it was
selected. This string shows black pixels instead of red ones. sixel survey
counts only registers up to 255: a greater one breaks Register.

String: ESC P q \"1;1;1;6#1#1;2;100;0;0~ ESC \\
Output of check --on foot: broken Stale 25

Fix: define before you select, as sixel mend does; or select again after a
definition.
";

const LARGE: &str = "Large: a width above 1,000 or a height above 996

Broken on xterm by raster attributes with a width above 1,000 or a height above
996. Of a picture with a side above 1,000 xterm draws nothing. Of one of 997 to
1,000 rows it draws only the first column of the last band.

String: ESC P q \"1;1;1001;1#0;2;0;0;0#0!1001@ ESC \\
Output of check --on xterm: broken Large 3

Fix: scale the picture down, or cut it into several strings. sixel mend keeps
its size, and sixel mend --on xterm refuses it. Or start xterm with -xrm 'XTerm*maxGraphicSize: 2048x2048': then it
draws the picture, and the rule doesn't matter.
";

const ROWS: &str = "Rows: a height that is no multiple of six

Broken on konsole by raster attributes whose height is no multiple of six.
konsole fills the rows below the box with register 0, up to the next multiple of
six.

String: ESC P q \"1;1;1;1#0;2;0;0;0#0@ ESC \\
Output of check --on konsole: broken Rows 3

Fix: make the height a multiple of six, as sixel mend --on konsole does. Or leave
room for up to five rows below the picture: then the rule doesn't matter.
";

const PAST: &str = "Past: blanks right of the box or below it

Broken on konsole by a sixel or a repeat without a set bit that ends right of
the box, or is in a band that begins below it. With a set bit it breaks Outside.
konsole fills such blanks with register 0. This string shows a black column
right of the box.

String: ESC P q \"1;1;1;6#0;2;0;0;0#0~? ESC \\
Output of check --on konsole: broken Past 24

Fix: leave out blanks past the box, as sixel mend does.
";

const HUE: &str = "Hue: a colour of hue, lightness and saturation

Broken on xterm by a definition in colour system 1, which is hue, lightness and
saturation. xterm rounds the hue down to a multiple of 60. This string shows
blue pixels instead of violet ones.

String: ESC P q \"1;1;1;6#0;1;30;50;100#0~ ESC \\
Output of check --on xterm: broken Hue 11

Fix: write red, green and blue, in system 2. sixel mend keeps hues.
";

const FAR: &str = "Far: sixels right of the box, far below it or past column 32,767

Broken on mlterm by a sixel or a repeat, with or without a set bit, that ends
past column 32,767 or right of the box, or whose band ends more than 512 rows
below the box. mlterm may end at these, or show pixels that nothing paints in
any colours.

String: ESC P q \"1;1;1;6#0;2;0;0;0#0~!32767? ESC \\
Output of check --on mlterm: broken Far 24

Fix: leave out blanks past the box, as sixel mend does.
";

const INTRODUCER: &str =
    "Introducer: an introducer by which xterm draws nothing or mlterm may mix colours

Broken on xterm and mlterm by an introducer whose first number is 5 or above 9,
or whose second number begins with the digit 5. If the first number is above 9,
xterm draws nothing. mlterm looks for a 5 behind the first digit, and zeros may
stand before a number: if it finds one, it mixes colours. A pixel painted first
in register 1 and then in 2 is in register 3 then.

String: ESC P 10;1q\"1;1;1;6#0;2;0;0;0#0~ ESC \\
Output of check --on xterm: broken Introducer 0

Fix: begin with ESC P q or ESC P 0;1q, as sixel mend does.
";

const BARE: &str = "Bare: a selection without a number

Broken on xterm and mlterm by # that no digit and no ; follows. xterm ends the
string there, and draws nothing of what comes after it. mlterm selects nothing,
and swallows the next byte, whatever it is, the ESC of the terminator too. Of
this string xterm draws nothing.

String: ESC P q \"1;1;1;6#0;2;0;0;0#~ ESC \\
Output of check --on xterm: broken Bare 21

Fix: write the number, #0 for register 0, as sixel mend does.
";

const SPACE_AFTER: &str = "SpaceAfter: a space after the terminator

Broken on xterm by a space after the terminator. The cursor is at the left of
the picture's last row of text then, and the space erases a cell of the picture.
After a line feed it does no harm, but breaks the rule all the same. show --on
xterm draws the picture as if nothing came after it.

String: ESC P q \"1;1;1;6#0;2;0;0;0#0~ ESC \\ SP
Output of check --on xterm: broken SpaceAfter 26

Fix: write nothing after the terminator, as sixel mend does, or only a line
feed.
";
