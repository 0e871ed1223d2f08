//! Formats of files, told by their first bytes, and how to make a PPM or sixel text of one.
//!
//! The magic numbers are those of PNG (W3C), JPEG (ITU-T T.81), GIF (89a and 87a), WebP (RFC 9649), BMP, TIFF (6.0),
//! Netpbm's formats, gzip (RFC 1952), PDF (ISO 32000), PostScript and XML, and the byte order mark of UTF-8. Sixel text
//! is told by its introducer, which may be spelled out.

ghost use Rattle.std.specs.Prelude.{◌≡◌, ◌≤◌, length};
ghost use Rattle.sixel_messages.specs.Formats.{format_among, format_of, is_undecided, other_numbers, picture_numbers};
ghost use Rattle.sixel_messages.specs.Formats.{plain_advice, ppm_advice, sixel_advice};

/// How many of a file's first bytes are needed to tell its format.
pub const PREFIX_LENGTH: usize = 12;

/// The format of a file.
#[derive(Clone, Copy, Debug, PartialEq, Eq)]
pub enum Format {
    Png,
    Jpeg,
    Gif,
    WebP,
    Bmp,
    Tiff,
    /// The raw PPM, which `encode` reads.
    Ppm,
    /// Another format of Netpbm.
    Netpbm,
    Gzip,
    Pdf,
    PostScript,
    /// XML, which an SVG is.
    Xml,
    /// Text after a byte order mark.
    Marked,
    /// Sixel text with `^[` in place of ESC, as `cat -v` shows it.
    Careted,
    /// Sixel text with an escape sequence of a programming language in place of ESC.
    Escaped,
    /// Sixel text, which all other tasks read.
    Sixel,
    /// No bytes. `format_of` doesn't say so: more may come.
    Empty,
}

/// The format of a file that begins with these bytes, told by its magic number; `None` if that is unknown.
pub fn format_of(prefix: &[u8]) -> Option<Format>
    ensures { result ≡ format_of prefix.now }
{
    match picture_format(prefix) {
        Some(format) => Some(format),
        None => other_format(prefix),
    }
}

/// The format of a picture of pixels.
fn picture_format(prefix: &[u8]) -> Option<Format>
    ensures { result ≡ format_among picture_numbers prefix.now }
{
    match prefix {
        [0x89, b'P', b'N', b'G', ..] => Some(Format::Png),
        [0xff, 0xd8, 0xff, ..] => Some(Format::Jpeg),
        [b'G', b'I', b'F', b'8', ..] => Some(Format::Gif),
        [
            b'R',
            b'I',
            b'F',
            b'F',
            _,
            _,
            _,
            _,
            b'W',
            b'E',
            b'B',
            b'P',
            ..
        ] => Some(Format::WebP),
        [b'B', b'M', ..] => Some(Format::Bmp),
        [b'I', b'I', b'*', 0, ..] | [b'M', b'M', 0, b'*', ..] => Some(Format::Tiff),
        [b'P', b'6', ..] => Some(Format::Ppm),
        [b'P', b'1'..=b'5' | b'7', ..] => Some(Format::Netpbm),
        _ => None,
    }
}

/// Any other format.
fn other_format(prefix: &[u8]) -> Option<Format>
    ensures { result ≡ format_among other_numbers prefix.now }
{
    match prefix {
        [0x1f, 0x8b, ..] => Some(Format::Gzip),
        [b'%', b'P', b'D', b'F', ..] => Some(Format::Pdf),
        [b'%', b'!', ..] => Some(Format::PostScript),
        [b'<', b'?', b'x', b'm', b'l', ..] | [b'<', b's', b'v', b'g', ..] => Some(Format::Xml),
        [0xef, 0xbb, 0xbf, ..] => Some(Format::Marked),
        [b'^', b'[', b'P', ..] => Some(Format::Careted),
        [b'\\', b'0', b'3', b'3', b'P', ..]
        | [b'\\', b'x', b'1', b'b', b'P', ..]
        | [b'\\', b'e', b'P', ..] => { Some(Format::Escaped) }
        [0x1b, b'P', ..] | [0x90, ..] => Some(Format::Sixel),
        _ => None,
    }
}

/// Whether more bytes may tell the format of a file that begins with these: they are none, or the first one is that of
/// a magic number which isn't there yet.
#[tactic(auto, unfolding(crate::specs::Formats::is_undecided))]
pub fn is_undecided(prefix: &[u8]) -> bool
    ensures { result ≡ is_undecided prefix.now }
{
    match prefix {
        [] => true,
        [
            0x89
            | 0xff
            | b'G'
            | b'R'
            | b'B'
            | b'I'
            | b'M'
            | b'P'
            | 0x1f
            | b'%'
            | b'<'
            | 0xef
            | b'^'
            | b'\\'
            | 0x1b,
            ..
        ] => { format_of(prefix).is_none() }
        _ => false,
    }
}

/// The line that names the format and the programs that make a PPM of such a file, for `encode`.
pub fn ppm_advice(format: Format) -> &'static str
    ensures text { result.now ≡ ppm_advice format }
    ensures short { length result.now ≤ 125 }
{
    match format {
        Format::Png => {
            "sixel: this is a PNG; `pngtopnm -mix | pnmdepth 255 | ppmtoppm | pnmquant 16` makes a PPM (P6) of it\n"
        }
        Format::Jpeg =>
            "sixel: this is a JPEG; `jpegtopnm | ppmtoppm | pnmquant 16` makes a PPM (P6) of it\n",
        Format::Gif =>
            "sixel: this is a GIF; `giftopnm | ppmtoppm | pnmquant 16` makes a PPM (P6) of it\n",
        Format::WebP =>
            "sixel: this is a WebP; `dwebp -ppm - -o - | pnmquant 16` makes a PPM (P6) of it\n",
        Format::Bmp =>
            "sixel: this is a BMP; `bmptopnm | ppmtoppm | pnmquant 16` makes a PPM (P6) of it\n",
        Format::Tiff =>
            "sixel: this is a TIFF; `tifftopnm | ppmtoppm | pnmquant 16` makes a PPM (P6) of it\n",
        Format::Ppm => "",
        Format::Netpbm => {
            "sixel: this is a Netpbm file; `ppmtoppm | pnmquant 16` makes a PPM (P6) of it\n"
        }
        Format::Pdf =>
            "sixel: this is a PDF; `pdftoppm -singlefile | pnmquant 16` makes a PPM (P6) of it\n",
        Format::PostScript => {
            "sixel: this is PostScript; `gs -q -sDEVICE=ppmraw -o - - | pnmquant 16` makes a PPM (P6) of it\n"
        }
        Format::Xml => {
            "sixel: this is XML; of an SVG, `rsvg-convert | pngtopnm -mix | ppmtoppm | pnmquant 16` makes a PPM (P6) of it\n"
        }
        Format::Sixel => "sixel: this is sixel text; `sixel check` reads it\n",
        Format::Gzip | Format::Marked | Format::Careted | Format::Escaped | Format::Empty =>
            plain_advice(format),
    }
}

/// The line that names the format and the programs that make sixel text of such a file, for all other tasks.
pub fn sixel_advice(format: Format) -> &'static str
    ensures text { result.now ≡ sixel_advice format }
    ensures short { length result.now ≤ 125 }
{
    match format {
        Format::Png => {
            "sixel: this is a PNG; `pngtopnm -mix | pnmdepth 255 | ppmtoppm | pnmquant 16 | sixel encode` makes sixel text of it\n"
        }
        Format::Jpeg => {
            "sixel: this is a JPEG; `jpegtopnm | ppmtoppm | pnmquant 16 | sixel encode` makes sixel text of it\n"
        }
        Format::Gif => {
            "sixel: this is a GIF; `giftopnm | ppmtoppm | pnmquant 16 | sixel encode` makes sixel text of it\n"
        }
        Format::WebP => {
            "sixel: this is a WebP; `dwebp -ppm - -o - | pnmquant 16 | sixel encode` makes sixel text of it\n"
        }
        Format::Bmp => {
            "sixel: this is a BMP; `bmptopnm | ppmtoppm | pnmquant 16 | sixel encode` makes sixel text of it\n"
        }
        Format::Tiff => {
            "sixel: this is a TIFF; `tifftopnm | ppmtoppm | pnmquant 16 | sixel encode` makes sixel text of it\n"
        }
        Format::Ppm =>
            "sixel: this is a PPM; `pnmquant 16 | sixel encode` makes sixel text of it\n",
        Format::Netpbm => {
            "sixel: this is a Netpbm file; `ppmtoppm | pnmquant 16 | sixel encode` makes sixel text of it\n"
        }
        Format::Pdf => {
            "sixel: this is a PDF; `pdftoppm -singlefile | pnmquant 16 | sixel encode` makes sixel text of it\n"
        }
        Format::PostScript => {
            "sixel: this is PostScript; `gs -q -sDEVICE=ppmraw -o - - | pnmquant 16 | sixel encode` makes sixel text of it\n"
        }
        Format::Xml => {
            "sixel: this is XML; of an SVG, `rsvg-convert | pngtopnm -mix | ppmtoppm | pnmquant 16 | sixel encode` makes sixel text of it\n"
        }
        Format::Sixel => "",
        Format::Gzip | Format::Marked | Format::Careted | Format::Escaped | Format::Empty =>
            plain_advice(format),
    }
}

/// The line of a format that has one for all tasks.
fn plain_advice(format: Format) -> &'static str
    ensures text { result.now ≡ plain_advice format }
    ensures short { length result.now ≤ 125 }
{
    match format {
        Format::Gzip => "sixel: this is a gzip file; `gzip -dc` unpacks it\n",
        Format::Marked => "sixel: this begins with a byte order mark; `tail -c +4` leaves it out\n",
        Format::Careted => {
            "sixel: this is sixel text with ^[ in place of ESC; `sed 's/\\^\\[/\\x1b/g'` makes ESC of it\n"
        }
        Format::Escaped => {
            "sixel: this is sixel text with ESC spelled out; `bash -c 'printf %b \"$(cat)\"'` makes ESC of it\n"
        }
        _ => "",
    }
}
