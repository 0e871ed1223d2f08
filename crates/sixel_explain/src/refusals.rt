//! The explanation of each reason for refusing a run. docs/REFUSALS.md has the same text.

ghost use Rattle.std.specs.Prelude.{◌≡◌, IfSome, IsNone};
ghost use Rattle.std.specs.Io.{StartsWith};
ghost use Rattle.std.specs.Str.{str_to_ascii_lowercase};
ghost use Rattle.sixel_grammar.specs.declared.fault.Reason.{Reason as AReason};
ghost use Rattle.sixel_ppm.specs.declared.ppm.PpmReason.{PpmReason as APpmReason};
ghost use Rattle.sixel_explain.specs.declared.explanations.Topic.TheVariants as topic;
ghost use Rattle.sixel_explain.specs.Explanations.{first_line};
ghost use Rattle.sixel_report.specs.Texts.{ppm_reason_name, reason_name};

use sixel_grammar::Reason;
use sixel_ppm::PpmReason;

/// The reason for refusing sixel text whose name this is in small letters.
pub fn reason_named(name: &str) -> Option<Reason>
    ensures found { IfSome result (λ reason. str_to_ascii_lowercase (reason_name reason) ≡ name.now) }
    ensures none { IsNone result → (reason : AReason) → str_to_ascii_lowercase (reason_name reason) ≡ name.now → ⊥ }
{
    match name {
        "notsixel" => Some(Reason::NotSixel),
        "badbyte" => Some(Reason::BadByte),
        "numbertoolarge" => Some(Reason::NumberTooLarge),
        "fieldcount" => Some(Reason::FieldCount),
        "badrepeat" => Some(Reason::BadRepeat),
        "badterminator" => Some(Reason::BadTerminator),
        "truncated" => Some(Reason::Truncated),
        "toolong" => Some(Reason::TooLong),
        "trailing" => Some(Reason::Trailing),
        _ => None,
    }
}

/// The reason for refusing a PPM whose name this is in small letters.
pub fn ppm_reason_named(name: &str) -> Option<PpmReason>
    ensures found { IfSome result (λ reason. str_to_ascii_lowercase (ppm_reason_name reason) ≡ name.now) }
    ensures none { IsNone result → (reason : APpmReason) → str_to_ascii_lowercase (ppm_reason_name reason) ≡ name.now → ⊥ }
{
    match name {
        "header" => Some(PpmReason::Header),
        "size" => Some(PpmReason::Size),
        "maxval" => Some(PpmReason::Maxval),
        "sample" => Some(PpmReason::Sample),
        "short" => Some(PpmReason::Short),
        "trailing" => Some(PpmReason::Trailing),
        "toomanycolours" => Some(PpmReason::TooManyColours),
        _ => None,
    }
}

/// Why sixel text is refused, a string that is, and how to fix it.
pub fn of_reason(reason: Reason) -> &'static str
    ensures { StartsWith result.now (first_line (topic.Grammar reason)) }
{
    match reason {
        Reason::NotSixel => NOT_SIXEL,
        Reason::BadByte => BAD_BYTE,
        Reason::NumberTooLarge => NUMBER_TOO_LARGE,
        Reason::FieldCount => FIELD_COUNT,
        Reason::BadRepeat => BAD_REPEAT,
        Reason::BadTerminator => BAD_TERMINATOR,
        Reason::Truncated => TRUNCATED,
        Reason::TooLong => TOO_LONG,
        Reason::Trailing => TRAILING,
    }
}

/// The same for a PPM. One explanation of `Trailing` covers both.
pub fn of_ppm_reason(reason: PpmReason) -> &'static str
    ensures { StartsWith result.now (first_line (topic.Ppm reason)) }
{
    match reason {
        PpmReason::Header => HEADER,
        PpmReason::Size => SIZE,
        PpmReason::Maxval => MAXVAL,
        PpmReason::Sample => SAMPLE,
        PpmReason::Short => SHORT,
        PpmReason::Trailing => TRAILING,
        PpmReason::TooManyColours => TOO_MANY_COLOURS,
    }
}

const NOT_SIXEL: &str = "NotSixel: input that doesn't start like a sixel string

Refused: input that doesn't start with ESC P (or the byte 90, in hexadecimal),
at most three numbers and q. TAB, LF, CR and SP may come first. If the input
starts like another format, such as PNG or PPM, a second line names it and the
programs that make sixel text of it.

String: ESC P p ESC \\
Output of check: sixel: NotSixel at 2

Fix: remove what comes before the string. It starts with its ESC P, and q
follows its numbers. In the pass-through of tmux each ESC is doubled between ESC
P tmux; and ESC \\: take off these two, and one ESC of each pair. That of GNU
Screen is in pieces, each between ESC P and ESC \\: take these off, and join the
pieces.

Programs: use img2sixel without -P, and with -S for an animation; and gnuplot's
sixelgd without animate. mpv always writes other escape sequences first. More:
RECIPES.md, in share/doc/sixel/ or docs/.
";

const BAD_BYTE: &str = "BadByte: unexpected byte

Refused: an unexpected byte. Between commands, only those of a command, a
terminator, TAB, LF, CR and SP are allowed.

String: ESC P q = ESC \\
Output of check: sixel: BadByte at 3

Fix: remove it. A command starts with !, \", #, $, - or a sixel, which is a byte
from ? to ~.
";

const NUMBER_TOO_LARGE: &str = "NumberTooLarge: a number above 65,535

Refused: a number above 65,535.

String: ESC P q !65536~ ESC \\
Output of check: sixel: NumberTooLarge at 8

Fix: split a long repeat into several. A picture needs no such number elsewhere:
registers go up to 255, and widths and heights up to 2,048.
";

const FIELD_COUNT: &str = "FieldCount: too many or too few numbers in a command

Refused: a fourth number in the introducer, or a fifth in raster attributes; or
a colour command with neither one nor five numbers.

String: ESC P q #1;2~ ESC \\
Output of check: sixel: FieldCount at 7

Fix: after #, write only the register to select it; or the register, the colour
system and three coordinates to define it.
";

const BAD_REPEAT: &str = "BadRepeat: a repeat without a sixel after its count

Refused: anything but a sixel after ! and its count.

String: ESC P q !3$ ESC \\
Output of check: sixel: BadRepeat at 5

Fix: write the sixel right after the count. Nothing else can be repeated.
";

const BAD_TERMINATOR: &str = "BadTerminator: an ESC that isn't followed by \\

Refused: an ESC that isn't followed by \\.

String: ESC P q $ ESC ]
Output of check: sixel: BadTerminator at 5

Fix: end the string with ESC \\, and write other escape sequences before or after
it.
";

const TRUNCATED: &str = "Truncated: input that ends before the terminator is complete

Refused: input that ends before the terminator is complete.

String: ESC P q @
Output of check: sixel: Truncated at 4

Fix: write ESC \\ at the end. If the input was cut off, get the rest of it.
";

const TOO_LONG: &str = "TooLong: input of more than 268,435,456 bytes

Refused: input of more than 268,435,456 bytes.

Fix: write equal sixels in a row as a repeat, or cut the picture into several
strings.
";

const TRAILING: &str = "Trailing: data after the terminator, or after the last sample of a PPM

Refused: anything but TAB, LF, CR or SP after the terminator; in a PPM, any byte
after the last sample.

String: ESC P q ESC \\ x
Output of check: sixel: Trailing at 5

Fix: pass one string, or one PPM, at a time.

Programs: use img2sixel or chafa with one file, and gnuplot with one plot. For
one picture of an animation, use img2sixel -S, chafa --animate off or
ImageMagick FILE[0]. More: RECIPES.md, in share/doc/sixel/ or docs/.
";

const HEADER: &str = "Header: not a valid P6 header

Refused: an unexpected byte in the header of a PPM, or a header of more than
65,536 bytes. The offset is that of the byte. If the input starts like another
format, such as PNG, JPEG or WebP, a second line names it and the programs that
make a PPM of it. For sixel text it says that sixel check reads it.

String: P6 1,1 255
Output of encode: sixel: Header at 4

Fix: write P6, the width, the height and the maxval, with white space between
them and one byte of white space before the samples.
";

const SIZE: &str = "Size: a PPM width or height outside 1 to 2,048

Refused: a PPM width or height outside 1 to 2,048. The offset is that of the
number's first digit.

String: P6 0 1 255
Output of encode: sixel: Size at 3

Fix: scale a larger picture down, or cut it into several.
";

const MAXVAL: &str = "Maxval: a PPM maxval outside 1 to 255

Refused: a PPM maxval (maximum) outside 1 to 255. The offset is that of the
number's first digit.

String: P6 1 1 256 LF
Output of encode: sixel: Maxval at 7

Fix: write samples of one byte, with the maxval 255, for example by pnmdepth
255. ImageMagick writes them with -depth 8.
";

const SAMPLE: &str = "Sample: a PPM sample above the maxval

Refused: a PPM sample above the maxval. The offset is that of the sample.

String: P6 1 1 100 eee
Output of encode: sixel: Sample at 11

Fix: declare a maxval that no sample is above, at most 255.
";

const TOO_MANY_COLOURS: &str =
    "TooManyColours: a picture of more than 16 colours, or more than 256 with --wide

Refused: a PPM of more than 16 colours, or more than 256 with --wide, counted as
percentages. The offset is that of the first sample of the first pixel in the
17th colour, or the 257th. mend refuses a picture of as many colours, with its
background; then the line has no offset, and nothing is written.

String: P6 17 1 100 000111222333444555666777888999:::;;;<<<===>>>???@@@
Output of encode: sixel: TooManyColours at 60

Fix: reduce the picture to 16 colours first, for example by pnmquant 16. With
--wide, pnmquant 256 is enough: then the text is for terminals with 256
registers or more, and check needs --wide too. A text to mend can be reduced too:
sixel mend --wide FILE | sixel render --wide | pnmquant 16 | sixel encode
";

const SHORT: &str = "Short: a PPM that ends before its last sample

Refused: a PPM that ends before its last sample. The offset is its length.

String: P6 1 1 255 xx
Output of encode: sixel: Short at 13

Fix: write three samples for each pixel of the width times the height.
";

pub const NOT_RGB: &str =
    "NotRgb: a colour of hue, lightness and saturation that would appear in a PPM

Refused: render and show can't write a visible colour of hue, lightness and
saturation, since neither a PPM nor a PNG can hold it. Nothing is written.

String: ESC P q \"1;1;1;1#0;1;0;0;0#0@ ESC \\
Output of render: sixel: NotRgb

Fix: define the colour in system 2, as red, green and blue.
";

pub const NO_BOX: &str = "NoBox: a text that declares no box of a possible screen size

Refused: show --box needs raster attributes, and the first ones must have a
width and a height from 1 to 4,096. Nothing is written.

String: ESC P q #0@ ESC \\
Output of show --box: sixel: NoBox

Fix: leave out --box, and give the screen's sides by --width and --height; or
write raster attributes with the true size.
";

pub const UNMODELLED: &str =
    "Unmodelled: a command that the model of the named terminal doesn't cover

Refused: show --on draws by a model of the terminal, which was measured on the
real one. At some commands the model doesn't say what the terminal does: there
it does something that no other commands can tell, or nobody has measured it.
The offset is that of the first such command. Nothing is written.

String: ESC P q !0~ ESC \\
Output of show --on xterm: sixel: Unmodelled at 3

Fix: name another terminal; or leave out --on, and describe the terminal by the
other options. A portable picture of what one terminal shows comes from mend.
";

pub const NO_STRING: &str = "NoString: input to scan that has no sixel string

Refused: scan needs at least one sixel string: ESC P, digits and semicolons or
none, and q. Nothing is written.

String: x
Output of scan: sixel: NoString

Fix: look at whether the program writes pictures at all when its output isn't a
terminal. If it writes the bytes 90 and 9C in place of ESC P and ESC \\, give
--eight-bit. What a multiplexer such as tmux wraps has to be unwrapped first.
";

pub const EMPTY: &str = "Empty: a text that paints nothing and declares no width or no height

Refused: mend and differ need a picture of at least one pixel. A text without
raster attributes, or with a width or a height of 0 in them, has one only if a
bit is set. Nothing is written.

String: ESC P q ESC \\
Output of mend: sixel: Empty

Fix: look at what the text should show; it paints nothing.
";

pub const TOO_LARGE: &str =
    "TooLarge: a text for mend or differ whose picture has a side above 2,048

Refused: the picture of mend and of differ is as large as the declared box and
as what is painted need, but no side may be above 2,048. Nothing is written.

String: ESC P q \"1;1;2049;1 ESC \\
Output of mend: sixel: TooLarge

Fix: declare the true size. Scale a larger picture down, or cut it into several
strings.
";

pub const OUT_OF_MEMORY: &str = "OutOfMemory: an allocation failed

Refused: an allocation failed. The line is sixel: out of memory, and says
nothing about the input.

Fix: try again when other programs have freed memory.
";

pub const READ: &str = "Read: input that couldn't be opened or read

Refused: the input, or a named file, couldn't be opened or read. The line is
sixel: read failed; with a file, it has the name too. If a file can't be opened,
the line may say why in place of read failed: no such file, permission denied,
is a folder, or name is not valid UTF-8. Other reasons stand before read failed:
file name too long, not a directory, or too many levels of symbolic links.

Fix: check that the file exists under that name, that you may read it, and that
it is no folder. If its name isn't valid UTF-8, rename it or pass the file to
standard input.
";

pub const WRITE: &str = "Write: output that couldn't be written

Refused: the output couldn't be written. The line is sixel: write failed. A
prefix of the output may be there.

Fix: look at where the output goes: a disk may be full, or a program may have
stopped reading.
";
