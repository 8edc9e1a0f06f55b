//! Commands of a frame of HP-GL/2, `MC` to `PW`.
ghost use Rattle.std.specs.Prelude.{◌≡◌, map};
ghost use Rattle.command_names.specs.CommandNames.{texts_of};
ghost use Rattle.command_names.specs.declared.chapters.Chapter.TheVariants.{FramesToP};

/// The texts of this chapter.
#[tactic(auto, unfolding(crate::specs::CommandNames::texts_of))]
pub(crate) fn texts() -> &'static [&'static str]
    ensures { map (λ text. text.now) result.now ≡ texts_of FramesToP }
{
    &TEXTS
}

/// In the order of their keys.
pub(crate) const TEXTS: [&str; 16] = [
    "\
MC merge control (MC): refused
  Why:     it changes how marks mix with those below them
  Instead: leave it at its default
  Manual:  of the PCL 5 Color manual: Merge Control
",
    "\
MG message (MG): refused
  Why:     it is of plotters, and printers pass over it
  Instead: take it out, or choose a plotter without it in the program
  Manual:  of the HP-GL/2 Reference Guide: Message
",
    "\
MT media type (MT): refused
  Why:     it is of plotters, and printers pass over it
  Instead: take it out, or choose a plotter without it in the program
  Manual:  of the HP-GL/2 Reference Guide: Media Type
",
    "\
NP number of pens (NP): refused
  Why:     it is of colour, which pclcheck does not check
  Instead: use one black pen, SP1
  Manual:  of the PCL 5 Color manual: Number of Pens
",
    "\
NR not ready (NR): refused
  Why:     it is of plotters, and printers pass over it
  Instead: take it out, or choose a plotter without it in the program
  Manual:  of the HP-GL/2 Reference Guide: Not Ready
",
    "\
PA plot absolute (PA): taken
  Does:    it moves the pen to places, from the origin
  Reads:   Size, Orientation
  Finds:   12, 17, 28, 29
  Manual:  \"The Vector Group\", Plot Absolute
",
    "\
PC pen color assignment (PC): refused
  Why:     it is of colour, which pclcheck does not check
  Instead: use one black pen, SP1
  Manual:  of the PCL 5 Color manual: Pen Color Assignment
",
    "\
PD pen down (PD): taken
  Does:    it lowers the pen, and draws lines to places
  Reads:   Size, Orientation
  Finds:   12, 17, 28, 29
  Manual:  \"The Vector Group\", Pen Down
",
    "\
PE polyline encoded (PE): refused
  Why:     its data are decoded by the printer
  Instead: let the program send PA, PR, PU and PD
  Manual:  \"The Vector Group\", Polyline Encoded
",
    "\
PG advance full page (PG): refused
  Why:     printers pass over it in a frame
  Instead: leave the frame, ESC %0A, and send a form feed
  Manual:  \"The Configuration and Status Group\"
",
    "\
PM polygon mode (PM): refused
  Why:     pclcheck does not follow the areas that are filled
  Instead: let the program draw lines alone, or fill by ESC *c#P
  Manual:  \"The Polygon Group\", Polygon Mode
",
    "\
PP pixel placement (PP): refused
  Why:     it moves the edges of marks by a half pixel
  Instead: leave it at 0, which is the default
  Manual:  of the PCL 5 Color manual: Pixel Placement
",
    "\
PR plot relative (PR): taken
  Does:    it moves the pen to places, from where it is
  Reads:   Size, Orientation
  Finds:   12, 17, 28, 29
  Manual:  \"The Vector Group\", Plot Relative
",
    "\
PS plot size (PS): refused
  Why:     it is of plotters, and printers pass over it
  Instead: give the frame its size, ESC *c#X and ESC *c#Y
  Manual:  \"The Configuration and Status Group\"
",
    "\
PU pen up (PU): taken
  Does:    it raises the pen, and moves it to places
  Finds:   29
  Manual:  \"The Vector Group\", Pen Up
",
    "\
PW pen width (PW): taken
  Does:    the width of the pen, in millimetres
  Values:  more than 0
  Finds:   10
  Manual:  \"The Line and Fill Attributes Group\", Pen Width
",
];
