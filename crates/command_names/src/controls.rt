//! Control codes.
ghost use Rattle.std.specs.Prelude.{◌≡◌, map};
ghost use Rattle.command_names.specs.CommandNames.{texts_of};
ghost use Rattle.command_names.specs.declared.chapters.Chapter.TheVariants.{Controls};

/// The texts of this chapter.
#[tactic(auto, unfolding(crate::specs::CommandNames::texts_of))]
pub(crate) fn texts() -> &'static [&'static str]
    ensures { map (λ text. text.now) result.now ≡ texts_of Controls }
{
    &TEXTS
}

/// In the order of their keys.
pub(crate) const TEXTS: [&str; 12] = [
    "\
x00 null (NUL): refused
  Why:     the manual gives it no meaning
  Instead: take it out of the job
  Manual:  \"Fonts\", printable characters
",
    "\
x04 end of transmission (EOT): refused
  Why:     the manual gives it no meaning; Ctrl-D ends a PostScript job
  Instead: let the driver send no Ctrl-D
  Manual:  \"Fonts\", printable characters
",
    "\
x07 bell (BEL): refused
  Why:     the manual gives it no meaning
  Instead: take it out of the job
  Manual:  \"Fonts\", printable characters
",
    "\
x08 backspace (BS): refused
  Why:     how far it goes back depends on the character printed before
  Instead: move by ESC &a-1C or ESC *p-#X; embolden by ESC (s3B
  Manual:  \"Cursor Positioning\", Backspace
",
    "\
x09 horizontal tab (HT): refused
  Why:     it leads to the next tab stop, each eighth column, which pclcheck
           does not keep
  Instead: let the host expand tabs to spaces, or send ESC &a#C
  Manual:  \"Cursor Positioning\", Horizontal Tab
",
    "\
x0a line feed (LF): taken
  Does:    it moves down by one line
  Reads:   Size, Orientation, Vmi, LineTerm, what closing the page reads
  Finds:   12, 15
  Manual:  \"Cursor Positioning\", Line Feed
",
    "\
x0b vertical tab (VT): refused
  Why:     the manual gives it no meaning
  Instead: send line feeds, or ESC &a#R
  Manual:  \"Fonts\", printable characters
",
    "\
x0c form feed (FF): taken
  Does:    it closes the page, a page without a mark, too
  Reads:   LineTerm, what closing the page reads
  Finds:   12
  Manual:  \"Cursor Positioning\", Form Feed
",
    "\
x0d carriage return (CR): taken
  Does:    it moves to the left margin
  Reads:   Size, Orientation, Vmi, LineTerm, what closing the page reads
  Finds:   12, 15
  Manual:  \"Cursor Positioning\", Carriage Return
",
    "\
x0e shift out (SO): refused
  Why:     it is of the secondary font, and pclcheck checks jobs with one font
           at a time
  Instead: choose each font as the primary one, by ESC (s and ESC (#
  Manual:  \"PCL Font Selection\", Shift Out
",
    "\
x0f shift in (SI): refused
  Why:     it goes back from the secondary font, and pclcheck checks jobs with
           one font at a time
  Instead: take it out: without SO the primary font is in force
  Manual:  \"PCL Font Selection\", Shift In
",
    "\
x1a substitute (SUB): refused
  Why:     the manual gives it no meaning; Ctrl-Z ends files of DOS
  Instead: take it from the end of the file
  Manual:  \"Fonts\", printable characters
",
];
