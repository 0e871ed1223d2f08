//! The explanation of each rule. docs/RULES.md has the same text.

ghost use Rattle.std.specs.Prelude.{◌≡◌, IfSome, IsNone};
ghost use Rattle.std.specs.Io.{StartsWith};
ghost use Rattle.std.specs.Str.{str_to_ascii_lowercase};
ghost use Rattle.sixel_model.specs.declared.rule.Rule.{Rule as ARule};
ghost use Rattle.sixel_explain.specs.declared.explanations.Topic.TheVariants as topic;
ghost use Rattle.sixel_explain.specs.Explanations.{first_line};
ghost use Rattle.sixel_report.specs.Texts.{rule_name};

use sixel_check::Rule;

/// The rule whose name this is in small letters.
pub fn rule_named(name: &str) -> Option<Rule>
    ensures found { IfSome result (λ rule. str_to_ascii_lowercase (rule_name rule) ≡ name.now) }
    ensures none { IsNone result → (rule : ARule) → str_to_ascii_lowercase (rule_name rule) ≡ name.now → ⊥ }
{
    match name {
        "rasterfirst" => Some(Rule::RasterFirst),
        "rastertwice" => Some(Rule::RasterTwice),
        "ratio" => Some(Rule::Ratio),
        "boxsize" => Some(Rule::BoxSize),
        "register" => Some(Rule::Register),
        "colourvalue" => Some(Rule::ColourValue),
        "repeatzero" => Some(Rule::RepeatZero),
        "unselected" => Some(Rule::Unselected),
        "undefined" => Some(Rule::Undefined),
        "redefined" => Some(Rule::Redefined),
        "outside" => Some(Rule::Outside),
        "uncovered" => Some(Rule::Uncovered),
        "eightbit" => Some(Rule::EightBit),
        _ => None,
    }
}

/// What the rule means, what breaks it, how terminals differ, a string that breaks it, how to fix it, and what `mend`
/// does with it.
pub fn of_rule(rule: Rule) -> &'static str
    ensures { StartsWith result.now (first_line (topic.Rule rule)) }
{
    match rule {
        Rule::RasterFirst => RASTER_FIRST,
        Rule::RasterTwice => RASTER_TWICE,
        Rule::Ratio => RATIO,
        Rule::BoxSize => BOX_SIZE,
        Rule::Register => REGISTER,
        Rule::ColourValue => COLOUR_VALUE,
        Rule::RepeatZero => REPEAT_ZERO,
        Rule::Unselected => UNSELECTED,
        Rule::Undefined => UNDEFINED,
        Rule::Redefined => REDEFINED,
        Rule::Outside => OUTSIDE,
        Rule::Uncovered => UNCOVERED,
        Rule::EightBit => EIGHT_BIT,
    }
}

const RASTER_FIRST: &str =
    "RasterFirst: data, return, new line or terminator before any raster attributes

Broken by a sixel, a repeat, a return or a new line before any raster
attributes; or by the terminator, if there are none at all.

Terminals that fill the declared box erase what was painted before. And before
raster attributes, a sixel pixel may be two or more pixels tall.

String: ESC P q ESC \\
Output of check: broken RasterFirst 3

Fix: write \"1;1;WIDTH;HEIGHT, with the true size, right after the introducer.
sixel mend keeps earlier paint.
";

const RASTER_TWICE: &str = "RasterTwice: raster attributes more than once

Broken by every raster attributes command after the first.

Terminals that fill the declared box erase what was painted between the two.

String: ESC P q \"1;1;1;1\"1;1;1;1 ESC \\
Output of check: broken RasterTwice 11

Fix: write raster attributes once, when you know the size of the whole picture.
sixel mend keeps earlier paint.
";

const RATIO: &str = "Ratio: a pixel aspect ratio not written as 1;1

Broken by raster attributes whose first two numbers aren't both 1. So 2;2 breaks
it too, and so do missing numbers, which count as 0.

Terminals disagree on the height of a sixel pixel. With any other ratio it may
be any number of pixels.

String: ESC P q \"2;1;1;1 ESC \\
Output of check: broken Ratio 3

Fix: write 1;1, and stretch the picture yourself. sixel mend makes each sixel
pixel one row tall.
";

const BOX_SIZE: &str = "BoxSize: a width or height outside 1 to 2,048

Broken by raster attributes with a width or height outside 1 to 2,048. A missing
number counts as 0.

Terminals don't differ here. 2,048 is the largest side that this program holds,
and nothing can be promised about an empty box.

String: ESC P q \"1;1 ESC \\
Output of check: broken BoxSize 3

Fix: declare the size. Scale a larger picture down, or cut it into several
strings. sixel mend finds the size.

Programs: use gnuplot's sixelgd instead of its sixeltek, and sixel encode
instead of ppmtosixel: those two declare no size. For a side above 2,048 use
ImageMagick -resize 2048x2048, or pnmscale -xysize 2048 2048. More: RECIPES.md,
in share/doc/sixel/ or docs/.
";

const REGISTER: &str = "Register: a register above 15, or above 255 with --wide

Broken by a selection or a definition of a register above 15, or above 255 with
--wide.

Terminals take a register number modulo how many registers they have. The VT340
has 16, so 16 is register 0 there; on a terminal with 256 it is a register of
its own.

String: ESC P q #16 ESC \\
Output of check: broken Register 3

Fix: reduce the picture to 16 colours and number them from 0. Or check with
--wide, if the picture is meant only for terminals with 256 registers or more:
the promise then covers only these. sixel mend keeps up to 256 registers apart.

Programs: use img2sixel -p 16, chafa -c 16, ImageMagick -colors 16, or gnuplot's
sixelgd without truecolor. More: RECIPES.md, in share/doc/sixel/ or docs/.
";

const COLOUR_VALUE: &str =
    "ColourValue: a colour system other than 1 or 2, or a coordinate out of range

Broken by a definition whose colour system isn't 1 or 2, or that has a
coordinate out of range. In system 2 (red, green, blue) each coordinate is a
percentage, 0 to 100. In system 1 the hue goes up to 360, lightness and
saturation up to 100.

Terminals disagree: one takes the nearest value in range, another ignores the
definition. In any other colour system the definition gives no colour, and the
colour that the register had before differs between terminals.

String: ESC P q #0;2;255;0;0 ESC \\
Output of check: broken ColourValue 3

Fix: write system 2 and percentages, not 0 to 255. sixel mend takes the nearest
values; another system is no colour.
";

const REPEAT_ZERO: &str = "RepeatZero: a repeat of 0

Broken by a repeat with the count 0, or without a count.

Terminals take it as no column, or as one.

String: ESC P q \"1;1;1;1!0@ ESC \\
Output of check: broken RepeatZero 11

Fix: leave such a repeat out. sixel mend takes it as one column.
";

const UNSELECTED: &str = "Unselected: painting while no register is known

Broken by a command that paints while no register is known: none was selected,
or the last definition since then is of another one.

Terminals may start with any register selected, and a definition may select its
register or not.

String: ESC P q \"1;1;1;1@ ESC \\
Output of check: broken Unselected 11

Fix: select a register after the last definition, and again after each later
one. sixel mend paints in the register selected last, at first 0; with
--define-selects a definition selects.

Programs: use img2sixel -p 2 instead of -e. More: RECIPES.md, in
share/doc/sixel/ or docs/.
";

const UNDEFINED: &str = "Undefined: painting in a register that is not defined yet

Broken by a command that paints in a known register, if no definition of that
register comes before it.

Terminals start with different colours in their registers.

String: ESC P q \"1;1;1;1#0@ ESC \\
Output of check: broken Undefined 13

Fix: define every register that you paint in, for black too. sixel mend takes
the register's colour on a VT340.
";

const REDEFINED: &str = "Redefined: a different colour for a register already painted in

Broken by a definition of a register already painted in, if its colour isn't the
register's latest one.

Terminals disagree on the colour of a pixel: it keeps the one that its register
had when it was painted, or shows the one that the register has at the end.

String: ESC P q \"1;1;1;1#0;2;0;0;0#0@#0;2;100;0;0 ESC \\
Output of check: broken Redefined 24

Fix: give the second colour its own register. A picture has at most 16 colours,
or 256 with --wide. sixel mend keeps the colour at the time of painting; with
--showing it takes the last one.

Programs: use img2sixel -p 16 instead of -I. More: RECIPES.md, in
share/doc/sixel/ or docs/.
";

const OUTSIDE: &str = "Outside: a set bit outside the box

Broken by a command with a set bit outside the box. The two numbers after the
offset are the column and the row of the first such pixel, from the top left of
the box.

Terminals disagree on a pixel outside the box: one paints it, over whatever is
beside the picture; another clips it.

String: ESC P q \"1;1;1;1#0;2;0;0;0#0~ ESC \\
Output of check: broken Outside 23 0 1

Fix: declare the true size. If the height is no multiple of six, clear the bits
below the last row: here ~ sets six rows in a box of one, and @ sets only the
first. sixel mend makes the box as large as what is painted.

Programs: use sixel encode or ImageMagick instead of img2sixel, which paints
below a picture of fewer than six rows. More: RECIPES.md, in share/doc/sixel/ or
docs/.
";

const UNCOVERED: &str = "Uncovered: a pixel of the box that no set bit covers, at the terminator

Broken at the terminator, if a pixel of the box lies under no set bit. The two
numbers after the offset are the column and the row of the first such pixel.

Terminals fill the box with some colour at raster attributes, or leave it as it
was.

String: ESC P q \"1;1;1;1 ESC \\
Output of check: broken Uncovered 11 0 0

Fix: paint the background too, in a colour of its own. A picture with
transparent pixels can't be portable. sixel mend paints such pixels black, or in
the colour of --background.

Programs: use chafa -t 1, gnuplot's sixelgd without transparent, or ImageMagick
-background white -flatten, which puts a colour under the picture. More:
RECIPES.md, in share/doc/sixel/ or docs/.
";

const EIGHT_BIT: &str = "EightBit: the byte 90 as the introducer, or 9C as the terminator

Broken by an introducer that is the byte 90, and by a terminator that is the
byte 9C, both in hexadecimal. These are the 8-bit controls for ESC P and ESC \\.
No pixel is named. This is the last rule, so RasterFirst and Uncovered come
before it at a terminator.

Terminals without 8-bit controls don't see where the string starts, or where it
ends, and show nothing of it. In UTF-8 these bytes are parts of characters, and
most terminals don't take them as controls: xterm, foot and konsole show nothing
of a string that starts with 90, and mlterm shows it. (The sources of foot 1.13
and konsole 22.12 say so. If ESC P started the string, foot ends it at 9C.)

String: 90 q ESC \\
Output of check: broken EightBit 0

Fix: write ESC P and ESC \\. sixel mend writes these.

Programs: use img2sixel without -8, and sixel encode instead of ppmtosixel,
which has no option for it. More: RECIPES.md, in share/doc/sixel/ or docs/.
";
