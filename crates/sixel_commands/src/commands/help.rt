//! What the help of `sixel` and of each subcommand says below its options. A line has at most 80 columns.

pub const SIXEL: &str = "Exit status: 0 done or portable, 1 broken, 2 refused, 3 usage error.

Examples: sixel check plots/*.six
          sixel explain Uncovered
          sixel mend --background 100,100,100 plot.six > mended.six";

pub const LIST: &str = "Reads sixel text from FILE or, without one, from standard input. Writes to
standard output one line for the start, for each command and for the end: its
byte offset, its name and its numbers. Everything before a fault is listed too.

Exit status: 0 done, 2 refused, 3 usage error.

Example: sixel list plot.six";

pub const CHECK: &str =
    "Reads sixel text from each FILE in turn or, without one, from standard input.
Writes one line for each to standard output: `portable` and the size, or
`broken`, the rule, the byte offset and, for two rules, a pixel. With files,
each line starts with `FILE: `. If a file is refused, the reason goes to
standard error, and the files after it are still checked. sixel explain NAME
says what a rule or a refusal means, and how to fix it. With --failed the last
line on standard error says how many of several files aren't portable.

Terminals that were measured have rules of their own: xterm, for example, draws
nothing of a box with a side above 1,000 pixels. These rules count with --on.
NAMES are one or more of xterm, mlterm, foot and konsole, with commas between
them, or all. --ignore leaves out the rules that it names: konsole, for example,
fills up to five rows below a picture whose height is no multiple of six, which
is the rule Rows.

Exit status: 0 portable, 1 broken, 2 refused, 3 usage error; with several files
the greatest.

Examples: sixel check plots/*.six
          sixel check --on xterm,foot plot.six
          sixel check --on all --ignore Rows,Past plot.six";

pub const SURVEY: &str =
    "Reads sixel text from each FILE in turn or, without one, from standard input.
Writes a line for each broken rule to standard output: the rule, how often it is
broken, the byte offset of the first time and, for two rules, a pixel. If none
is broken, it writes `portable` and the size. With files, each line starts with
`FILE: `. If a file is refused, the reason goes to standard error, and the files
after it are still read. sixel explain NAME says what a rule or a refusal means,
and how to fix it. With --on NAMES the rules of these terminals count, too, but
for those of --ignore, as in check. With --failed the last line on standard
error says how many of several files aren't portable.

Exit status: 0 portable, 1 broken, 2 refused, 3 usage error; with several files
the greatest.

Example: sixel survey plot.six";

pub const SCAN: &str =
    "Reads what a program writes to a terminal, such as text, control sequences and
several pictures, from each FILE in turn or, without one, from standard input.
Writes a line for each picture to standard output as soon as it has ended: its
byte offset, and what check says of it by itself, or `refused`, the reason and
its offset. With files, each line starts with `FILE: `. If a file has no picture
or can't be read, the reason goes to standard error, and the files after it are
still read.

A picture starts with ESC P, numbers and q, and ends after ESC \\, before another
ESC, or after the byte 18 or 1A. --eight-bit is for terminals that take the
bytes 90 and 9C as controls; in UTF-8 they are parts of letters.

Exit status: 0 all portable, 1 one isn't or is refused, 2 no picture or a failed
read, 3 usage error; with several files the greatest.

Example: ./test-suite | sixel scan";

pub const RENDER: &str = "Reads sixel text from FILE or, without one, from standard input. Writes a
portable picture to standard output as a PPM or, with --png, as a PNG: the name
after `>` can't be seen. If the picture is broken, it writes the broken rule to
standard error, and no picture.

Exit status: 0 done, 1 broken, 2 refused, 3 usage error.

Examples: sixel render plot.six > plot.ppm
          sixel render --png plot.six > plot.png";

pub const ENCODE: &str = "Reads a PPM (P6) of at most 16 colours, or 256 with --wide, from FILE or,
without one, from standard input. Writes sixel text to standard output. Each
sample becomes the nearest percentage.

With --on the picture is one that these terminals show: konsole needs a height
that is a multiple of six, and gets rows below the picture, of the colour of
--pad. Refused for xterm: more than 1,000 columns or 996 rows. NAMES are one or
more of xterm, mlterm, foot and konsole, with commas between them, or all.

Exit status: 0 done, 2 refused, 3 usage error.

Examples: sixel encode plot.ppm > plot.six
          sixel encode --on all --pad 100,100,100 plot.ppm > plot.six";

pub const SHOW: &str = "Reads sixel text from FILE or, without one, from standard input. Writes the
screen of one terminal, which the options choose, to standard output, as a PPM
or, with --png, as a PNG: the name after `>` can't be seen. What is off the
screen is left out. Without --wide, register 16 is register 0, 17 is 1 and so
on. --box can't be combined with --width or --height.

--on NAME shows the screen of a terminal that was measured, by a model of it:
xterm, mlterm, foot or konsole. It can't be combined with --wide, --showing,
--fill or --define-selects, and --background only goes with it.

Exit status: 0 done, 2 refused, 3 usage error.

Examples: sixel show --wide --box plot.six > plot.ppm
          sixel show --on xterm --png plot.six > xterm.png";

pub const DIFFER: &str =
    "Reads sixel text from each FILE in turn or, without one, from standard input.
Draws it as xterm, mlterm, foot and konsole do, by models of them. Writes `same`
and the size if all four show the same. Else it writes a line for each group of
terminals that show the same and, from the second on, the column and the row of
the first pixel that differs from the first group's, counted from 0. A terminal
whose model can't say what it shows has a line with `unmodelled` and an offset.
With files, each line starts with `FILE: `. --sheet reads one file; the screens
are in the order above, and grey where the model can't say.

Exit status: 0 same, 1 not the same, 2 refused, 3 usage error; with several
files the greatest.

Example: sixel differ plot.six";

pub const MEND: &str =
    "Reads sixel text from FILE or, without one, from standard input. Draws it as one
terminal would, and writes what that shows to standard output, as portable sixel
text. The terminal has 256 registers, which start as the VT340's 16 colours over
and over. The picture is as large as the declared box, and larger if something
is painted outside it. Black ink is lost on a black background: for a plot or a
page, choose a white one. COLOUR is three percentages, as in 100,50,0; or three
samples, as in '#ff8000' or '#f80', each of which becomes the nearest
percentage; or one of the 16 basic colours of CSS, as in navy. Refused: a
picture without pixels, with a side above 2,048, or of more than 16 colours, or
256 with --wide. --on and --pad do what they do in encode; a colour by hue is
refused for xterm.

Exit status: 0 done, 2 refused, 3 usage error.

Examples: sixel mend --background 100,100,100 plot.six > mended.six
          sixel mend --on all plot.six > mended.six";

pub const EXPLAIN: &str =
    "Reads nothing. Writes to standard output what each rule or refusal means, what
breaks it and how to fix it; without NAME, one line for each name. Letters may
be in any case. In place of names there may be a line of check that has broken,
or one that says why an input was refused; put -- before a line that starts with
a dash.

Exit status: 0 done, 2 output failed, 3 usage error or unknown name.

Examples: sixel explain Uncovered
          sixel explain Ratio BoxSize
          sixel explain plot.six: broken Register 227";
