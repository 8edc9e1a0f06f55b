//! Commands of languages, places and macros: those behind ESC `%`, and ESC `&` to `&f`.
ghost use Rattle.std.specs.Prelude.{◌≡◌, map};
ghost use Rattle.command_names.specs.CommandNames.{texts_of};
ghost use Rattle.command_names.specs.declared.chapters.Chapter.TheVariants.{Places};

/// The texts of this chapter.
#[tactic(auto, unfolding(crate::specs::CommandNames::texts_of))]
pub(crate) fn texts() -> &'static [&'static str]
    ensures { map (λ text. text.now) result.now ≡ texts_of Places }
{
    &TEXTS
}

/// In the order of their keys.
pub(crate) const TEXTS: [&str; 23] = [
    "\
%-12345X universal exit language (%-12345X): taken
  Does:    as ESC E; a line that begins with @ is one of the job language then
  Reads:   what closing the page reads
  Finds:   12, 24
  Manual:  \"PCL Job Control Commands\", Universal Exit Language
",
    "\
%A enter PCL mode (%#A): taken
  Does:    it leaves the frame of HP-GL/2; outside a frame it does nothing
  Values:  0, 1
  Reads:   Size, Orientation
  Finds:   3, 12, 15
  Manual:  \"The Picture Frame\", Enter PCL Mode
",
    "\
%B enter HP-GL/2 mode (%#B): taken
  Does:    it enters a frame of HP-GL/2
  Values:  0, 1; not within a frame
  Reads:   Size, Orientation, Vmi at home
  Finds:   3, 12
  Manual:  \"The Picture Frame\", Enter HP-GL/2 Mode
",
    "\
&aC horizontal cursor positioning by columns (&a#C): taken
  Does:    it moves to a column; with a sign, by so many
  Reads:   Size, Orientation, Font without HMI
  Finds:   12, 13, 15, 31
  Manual:  \"Cursor Positioning\", Horizontal Cursor Positioning (Columns)
",
    "\
&aG duplex page side selection (&a#G): refused
  Why:     which side comes next depends on what the printer printed
  Instead: send a form feed, and set the sides by ESC &l#S
  Manual:  \"PCL Job Control Commands\", Duplex Page Side Selection
",
    "\
&aH horizontal cursor positioning by decipoints (&a#H): taken
  Does:    it moves to so many decipoints, 720 to an inch; with a sign, by so
           many
  Reads:   Size, Orientation
  Finds:   12, 15
  Manual:  \"Cursor Positioning\", Horizontal Cursor Positioning (Decipoints)
",
    "\
&aL left margin (&a#L): taken
  Does:    left margin: the left edge of so-many columns; a cursor left of it
           moves to it
  Values:  whole
  Reads:   Size, Orientation, Font without HMI
  Finds:   10, 12, 13, 32
  Manual:  \"Page Control Commands\", Left Margin
",
    "\
&aM right margin (&a#M): taken
  Does:    right margin: the right edge of that column; a cursor right of it
           moves to it
  Values:  whole
  Reads:   Size, Orientation, Font without HMI
  Finds:   10, 12, 13, 32
  Manual:  \"Page Control Commands\", Right Margin
",
    "\
&aN negative motion (&a#N): refused
  Why:     it is of DeskJet and color printers, which pclcheck does not check
  Instead: choose a driver for LaserJet printers
  Manual:  of the DeskJet developer's guides: Negative Motion
",
    "\
&aP print direction (&a#P): refused
  Why:     it turns the page against the paper, which pclcheck does not follow
  Instead: turn the page by the orientation, ESC &l#O
  Manual:  \"Page Control Commands\", Print Direction
",
    "\
&aR vertical cursor positioning by rows (&a#R): taken
  Does:    it moves to a row, of which the first is the first line; with a
           sign, by so many
  Reads:   Size, Orientation, Vmi
  Finds:   12, 15, 31
  Manual:  \"Cursor Positioning\", Vertical Cursor Positioning (Rows)
",
    "\
&aV vertical cursor positioning by decipoints (&a#V): taken
  Does:    it moves to so many decipoints, 720 to an inch; with a sign, by so
           many
  Reads:   Size, Orientation, Vmi at home
  Finds:   12, 15
  Manual:  \"Cursor Positioning\", Vertical Cursor Positioning (Decipoints)
",
    "\
&b monochrome mode, or network configuration (&b): refused
  Why:     it is of colour, which pclcheck does not check
  Instead: let the driver print in black, as for a monochrome printer
  Manual:  of the PCL 5 Color manual: Monochrome Print Mode
",
    "\
&bM monochrome print mode (&b#M): refused
  Why:     it is of colour, which pclcheck does not check
  Instead: let the driver print in black, as for a monochrome printer
  Manual:  of the PCL 5 Color manual: Monochrome Print Mode
",
    "\
&bW AppleTalk configuration (&b#W): refused
  Why:     its data configure the printer's network
  Instead: leave it out of jobs for a queue
  Manual:  \"PCL Job Control Commands\", AppleTalk Configuration
",
    "\
&c text path direction (&c#T): refused
  Why:     it lets text run down the page, which pclcheck does not follow
  Instead: let the driver move to each character, ESC *p#X and ESC *p#Y
  Manual:  \"Cursor Positioning\"
",
    "\
&d underline (&d#D and &d@): refused
  Why:     pclcheck does not check the lines that it draws
  Instead: draw a rule, ESC *c#P, or print without underlines
  Manual:  \"PCL Font Selection\", Underline
",
    "\
&d@ disable underline (&d@): refused
  Why:     pclcheck does not check the lines that it ends
  Instead: print without underlines
  Manual:  \"PCL Font Selection\", Underline
",
    "\
&dD enable underline (&d#D): refused
  Why:     pclcheck does not check the lines that it draws
  Instead: draw a rule, ESC *c#P, or print without underlines
  Manual:  \"PCL Font Selection\", Underline
",
    "\
&f10X macro control 10, make macro permanent (&f10X): refused
  Why:     the macro stays for the jobs behind this one
  Instead: define the macro in each job, and leave it temporary
  Manual:  \"Macros\", Macro Control
",
    "\
&fS push or pop cursor position (&f#S): taken
  Does:    push or pop
  Values:  0, 1
  Reads:   Vmi at home
  Finds:   10, 12, 18, 19
  Manual:  \"Cursor Positioning\", Push/Pop Cursor Position
",
    "\
&fX macro control (&f#X): taken
  Does:    it defines, runs, calls, deletes or overlays the macro of the id in
           force
  Values:  whole, 0 to 9
  Finds:   10, 20, 21, 23, 24
  Manual:  \"Macros\", Macro Control
",
    "\
&fY macro ID (&f#Y): taken
  Does:    macro id
  Values:  whole, 0 to 32767
  Finds:   10
  Manual:  \"Macros\", Macro ID
",
];
