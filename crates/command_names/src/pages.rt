//! Commands of lines and pages: those behind ESC `&k` and `&l`.
ghost use Rattle.std.specs.Prelude.{◌≡◌, map};
ghost use Rattle.command_names.specs.CommandNames.{texts_of};
ghost use Rattle.command_names.specs.declared.chapters.Chapter.TheVariants.{Pages};

/// The texts of this chapter.
#[tactic(auto, unfolding(crate::specs::CommandNames::texts_of))]
pub(crate) fn texts() -> &'static [&'static str]
    ensures { map (λ text. text.now) result.now ≡ texts_of Pages }
{
    &TEXTS
}

/// In the order of their keys.
pub(crate) const TEXTS: [&str; 20] = [
    "\
&kG line termination (&k#G): taken
  Does:    which of CR, LF and FF stand for CR and the code itself
  Values:  0, 1, 2, 3
  Finds:   10
  Manual:  \"Cursor Positioning\", Line Termination
",
    "\
&kH horizontal motion index (&k#H): taken
  Does:    horizontal motion index, from 0 to 840 times 1/120 inch
  Values:  0 to 840
  Finds:   10
  Manual:  \"Cursor Positioning\", Horizontal Motion Index
",
    "\
&kS pitch mode (&k#S): refused
  Why:     it chooses a pitch by a name of older printers
  Instead: choose the pitch by ESC (s#H
  Manual:  \"PCL Font Selection\", Pitch Mode
",
    "\
&kW print direction of the head (&k#W): refused
  Why:     it is of DeskJet printers, whose head prints in one direction or in
           both
  Instead: choose a driver for LaserJet printers
  Manual:  of the DeskJet developer's guides
",
    "\
&lA page size (&l#A): taken
  Does:    the paper, by its number, as 2 for Letter and 26 for A4
  Values:  whole, 1 to 999
  Reads:   what closing the page reads
  Finds:   10, 11, 12, 23
  Manual:  \"Page Control Commands\", Page Size
",
    "\
&lC vertical motion index (&l#C): taken
  Does:    vertical motion index, from 0 to 335 times 1/48 inch
  Values:  0 to 335
  Finds:   10
  Manual:  \"Page Control Commands\", Vertical Motion Index
",
    "\
&lD line spacing (&l#D): taken
  Does:    line spacing: so many lines an inch, a divisor of 48
  Values:  1, 2, 3, 4, 6, 8, 12, 16, 24, 48
  Finds:   10
  Manual:  \"Page Control Commands\", Line Spacing
",
    "\
&lE top margin (&l#E): taken
  Does:    top margin: so many lines from the upper edge of the logical page;
           the bottom margin is its default again
  Values:  whole
  Reads:   Size, Orientation, Vmi
  Finds:   10, 12, 32
  Manual:  \"Page Control Commands\", Top Margin
",
    "\
&lF text length (&l#F): taken
  Does:    text length: the bottom margin is so many lines below the top margin
  Values:  whole, from 1
  Reads:   Size, Orientation, Vmi
  Finds:   10, 12, 32
  Manual:  \"Page Control Commands\", Text Length
",
    "\
&lG output bin selection (&l#G): refused
  Why:     which bins a printer has is not in profiles
  Instead: choose the bin at the queue or the panel
  Manual:  \"PCL Job Control Commands\", Output Bin Selection
",
    "\
&lH paper source (&l#H): taken
  Does:    the tray, by its number; 0 only closes the page
  Values:  whole, 0 to 255
  Reads:   what closing the page reads
  Finds:   10, 11, 12, 23
  Manual:  \"Page Control Commands\", Paper (Media) Source
",
    "\
&lL perforation skip (&l#L): taken
  Does:    perforation skip: another value than the one in force returns the
           top and the bottom margin to their defaults
  Values:  0, 1
  Finds:   10
  Manual:  \"Page Control Commands\", Perforation Skip
",
    "\
&lM media type (&l#M): refused
  Why:     which media a printer has is not in profiles
  Instead: choose a tray, ESC &l#H
  Manual:  \"Page Control Commands\", Media Type
",
    "\
&lO logical page orientation (&l#O): taken
  Does:    0 portrait, 1 landscape, 2 and 3 the same the other way round
  Values:  0, 1, 2, 3
  Reads:   what closing the page reads
  Finds:   10, 11, 12, 23
  Manual:  \"Page Control Commands\", Logical Page Orientation
",
    "\
&lP page length (&l#P): refused
  Why:     it gives the paper in lines, which printers round to a size that
           they have
  Instead: choose the paper by ESC &l#A
  Manual:  \"Page Control Commands\", Page Length
",
    "\
&lS simplex/duplex print (&l#S): taken
  Does:    one side, 0, or both, 1 and 2
  Values:  0, 1, 2
  Reads:   what closing the page reads
  Finds:   10, 11, 12, 23
  Manual:  \"PCL Job Control Commands\", Simplex/Duplex Print
",
    "\
&lT job separation (&l#T): refused
  Why:     it moves the sheets of the output bin against each other
  Instead: separate jobs by ESC E or ESC %-12345X
  Manual:  \"PCL Job Control Commands\", Job Separation
",
    "\
&lU left offset registration (&l#U): refused
  Why:     it moves the page on the paper, and marks over the printable edge
  Instead: move what is printed by ESC &a#L or ESC &a#H
  Manual:  \"PCL Job Control Commands\", Left Offset Registration
",
    "\
&lX number of copies (&l#X): taken
  Does:    so many copies of each page
  Values:  whole, 1 to 32767
  Finds:   10
  Manual:  \"PCL Job Control Commands\", Number of Copies
",
    "\
&lZ top offset registration (&l#Z): refused
  Why:     it moves the page on the paper, and marks over the printable edge
  Instead: move what is printed by ESC &l#E or ESC &a#V
  Manual:  \"PCL Job Control Commands\", Top Offset Registration
",
];
