//! Which line of the job language a refused one is, by its words.

ghost use Rattle.std.specs.Prelude.{◌≡◌, get_or, map};
ghost use Rattle.std.specs.List.{position};
ghost use Rattle.survey.specs.NamedLines.{
  at_blank,
  at_solid,
  begins_so,
  front_of,
  goes_to,
  is_whole,
  line_at,
  line_on,
  no_line,
  number_of,
  over,
  row_on,
  text_at,
  with_name,
};

use pcl_items::capital;

/// The lines that are told by their words, as these stand behind `@`: the commands of the job
/// language, and the languages that hosts enter most. A line stands before those that it begins.
pub(crate) const LINES: [&str; 30] = [
    "PJL COMMENT",
    "PJL DEFAULT",
    "PJL DINQUIRE",
    "PJL DMCMD",
    "PJL DMINFO",
    "PJL ECHO",
    "PJL ENTER",
    "PJL ENTER LANGUAGE=PCL3GUI",
    "PJL ENTER LANGUAGE=PCLXL",
    "PJL ENTER LANGUAGE=POSTSCRIPT",
    "PJL EOJ",
    "PJL FSAPPEND",
    "PJL FSDELETE",
    "PJL FSDIRLIST",
    "PJL FSDOWNLOAD",
    "PJL FSINIT",
    "PJL FSMKDIR",
    "PJL FSQUERY",
    "PJL FSUPLOAD",
    "PJL INFO",
    "PJL INITIALIZE",
    "PJL INQUIRE",
    "PJL JOB",
    "PJL OPMSG",
    "PJL RDYMSG",
    "PJL RESET",
    "PJL SET",
    "PJL STMSG",
    "PJL USTATUS",
    "PJL USTATUSOFF",
];

/// The number of no line.
const NO_LINE: usize = 255;

/// How far a line was read.
#[derive(Clone, Copy)]
pub struct NamedLine {
    /// The number of the first line that begins with what was read, and how many of its bytes that
    /// is. A blank that stands in no line is none of them.
    pub row: usize,
    pub len: u8,
    /// The last line of which all words were read with a blank behind them.
    pub named: usize,
    /// What stands behind is of none of the lines.
    pub is_over: bool,
}

impl NamedLine {
    /// Of no byte.
    pub fn none() -> NamedLine
        ensures { result ≡ no_line }
    {
        NamedLine {
            row: 0,
            len: 0,
            named: NO_LINE,
            is_over: false,
        }
    }

    /// The number of the line that was read, whatever stands behind it.
    pub fn number(self) -> usize
        ensures { result ≡ number_of self }
    {
        if self.is_whole() {
            self.row
        } else {
            self.named
        }
    }

    /// With a further byte.
    pub fn with_byte(self, byte: u8) -> NamedLine
        ensures { result ≡ line_on self byte }
    {
        if self.is_over {
            return self;
        }
        match byte {
            b'\t' | b'\r' | b' ' => self.at_blank(self.row_on(b' ')),
            _ => self.at_solid(self.row_on(capital(byte))),
        }
    }

    /// Whether all words of the row were read.
    fn is_whole(self) -> bool
        ensures { result ≡ is_whole self }
    {
        line_at(self.row).len() == usize::from(self.len)
    }

    /// The number of the first line that begins with what was read and this byte.
    fn row_on(self, byte: u8) -> Option<usize>
        ensures { result ≡ row_on self byte }
    {
        first_on(&LINES, line_at(self.row), self.len, byte)
    }

    /// With a blank, which this line has there, or none has.
    fn at_blank(self, row: Option<usize>) -> NamedLine
        ensures { result ≡ at_blank row self }
    {
        match row {
            Some(row) => self.with_name().goes_to(row),
            None => {
                if self.is_whole() {
                    self.with_name().over()
                } else {
                    self
                }
            }
        }
    }

    /// With another byte, which this line has there, or none has.
    fn at_solid(self, row: Option<usize>) -> NamedLine
        ensures { result ≡ at_solid row self }
    {
        match row {
            Some(row) => self.goes_to(row),
            None => self.over(),
        }
    }

    fn goes_to(self, row: usize) -> NamedLine
        ensures { result ≡ goes_to row self }
    {
        NamedLine {
            row,
            len: self.len.saturating_add(1),
            ..self
        }
    }

    fn over(self) -> NamedLine
        ensures { result ≡ over self }
    {
        NamedLine {
            len: 0,
            is_over: true,
            ..self
        }
    }

    fn with_name(self) -> NamedLine
        ensures { result ≡ with_name self }
    {
        NamedLine {
            named: self.number(),
            ..self
        }
    }
}

/// The words of the line of a number, or nothing.
pub(crate) fn line_at(number: usize) -> &'static str
    ensures { result.now ≡ line_at number }
{
    text_at(&LINES, number)
}

/// The text of a number, from 0, or nothing.
fn text_at<'t>(texts: &[&'t str], number: usize) -> &'t str
    ensures { result.now ≡ text_at (map (λ text. text.now) texts.now) number }
{
    match texts.get(number) {
        Some(text) => text,
        None => "",
    }
}

/// The number of the first of these lines that begins with so many bytes of what was read, and
/// then has this byte.
fn first_on(lines: &[&str], read: &str, len: u8, byte: u8) -> Option<usize>
    ensures { result ≡ position (λ line. begins_so line.now read.now len byte) lines.now }
{
    lines
        .iter()
        .position(|line| begins_so(line, read, len, byte))
}

/// Whether a line begins with so many bytes of what was read, and then has this byte.
fn begins_so(line: &str, read: &str, len: u8, byte: u8) -> bool
    ensures { result ≡ begins_so line.now read.now len byte }
{
    let bytes = line.as_bytes();
    front_of(len, bytes) == front_of(len, read.as_bytes()) && byte_at(bytes, len) == byte
}

/// So many bytes of a text, or all where it has fewer.
fn front_of(len: u8, text: &[u8]) -> &[u8]
    ensures { result.now ≡ front_of len text.now }
{
    let count = usize::from(len);
    if text.len() <= count {
        return text;
    }
    &text[..count]
}

/// The byte of a text behind so many others, or 0.
pub(crate) fn byte_at(text: &[u8], index: u8) -> u8
    ensures { result ≡ get_or text.now index 0 }
{
    match text.get(usize::from(index)) {
        Some(byte) => *byte,
        None => 0,
    }
}
