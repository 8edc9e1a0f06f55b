//! Other commands of jobs and text: those behind ESC `&n` and on, and those of two characters.
ghost use Rattle.std.specs.Prelude.{◌≡◌, map};
ghost use Rattle.command_names.specs.CommandNames.{texts_of};
ghost use Rattle.command_names.specs.declared.chapters.Chapter.TheVariants.{Jobs};

/// The texts of this chapter.
#[tactic(auto, unfolding(crate::specs::CommandNames::texts_of))]
pub(crate) fn texts() -> &'static [&'static str]
    ensures { map (λ text. text.now) result.now ≡ texts_of Jobs }
{
    &TEXTS
}

/// In the order of their keys.
pub(crate) const TEXTS: [&str; 14] = [
    "\
&n alphanumeric ID (&n#W): refused
  Why:     its data name fonts, macros or media of the printer
  Instead: give macros numbers, ESC &f#Y
  Manual:  \"Macros\"
",
    "\
&pC palette control (&p#C): refused
  Why:     it is of colour, which pclcheck does not check
  Instead: let the driver print in black, as for a monochrome printer
  Manual:  of the PCL 5 Color manual: Palette Control
",
    "\
&pI palette control ID (&p#I): refused
  Why:     it is of colour, which pclcheck does not check
  Instead: let the driver print in black, as for a monochrome printer
  Manual:  of the PCL 5 Color manual: Palette Control ID
",
    "\
&pS select palette (&p#S): refused
  Why:     it is of colour, which pclcheck does not check
  Instead: let the driver print in black, as for a monochrome printer
  Manual:  of the PCL 5 Color manual: Select Palette
",
    "\
&pX transparent print data (&p#X): taken
  Does:    each of so many bytes is printed as text, control codes, too
  Reads:   Size, Orientation, Vmi at home, Font
  Finds:   12, 13, 14, 15, 16, 17
  Manual:  \"PCL Font Selection\", Transparent Print Data
",
    "\
&r flush all pages (&r#F): refused
  Why:     the printer answers the host, which a file of bytes cannot follow
  Instead: leave it out of jobs for a queue
  Manual:  \"Status Readback Commands\", Flush All Pages
",
    "\
&s end-of-line wrap (&s#C): refused
  Why:     it lets lines that are too long go on below, which pclcheck does not
           follow
  Instead: take it out and break lines at the host; 16 finds those that are too
           long
  Manual:  \"Programming Hints\", End-of-Line Wrap
",
    "\
&t text parsing method (&t#P): refused
  Why:     it reads several bytes as one character
  Instead: print text of one byte a character
  Manual:  \"PCL Font Selection\", Text Parsing Method
",
    "\
&uD unit of measure (&u#D): taken
  Does:    so many PCL units an inch
  Values:  96, 100, 120, 144, 150, 160, 180, 200, 225, 240, 288, 300, 360, 400,
           450, 480, 600, 720, 800, 900, 1200, 1440, 1800, 2400, 3600, 7200
  Finds:   10
  Manual:  \"PCL Job Control Commands\", Unit of Measure
",
    "\
9 clear horizontal margins (ESC 9): taken
  Does:    the left and the right margin are the edges of the page again
  Manual:  \"Page Control Commands\", Clear Horizontal Margins
",
    "\
= half-line feed (ESC =): taken
  Does:    it moves down by half a line
  Reads:   Size, Orientation, Vmi, what closing the page reads
  Finds:   12, 15
  Manual:  \"Cursor Positioning\", Half-Line Feed
",
    "\
E printer reset (ESC E): taken
  Does:    it closes the page, and all settings are the user defaults again
  Reads:   what closing the page reads
  Finds:   12, 24
  Manual:  \"PCL Job Control Commands\", Printer Reset
",
    "\
Y display functions on (ESC Y): refused
  Why:     from here on printers print control codes and commands as text
  Instead: take it out: it is for looking for faults
  Manual:  \"Programming Hints\", Display Functions
",
    "\
Z display functions off (ESC Z): refused
  Why:     it ends the printing of control codes and commands as text
  Instead: take it out: it is for looking for faults
  Manual:  \"Programming Hints\", Display Functions
",
];
