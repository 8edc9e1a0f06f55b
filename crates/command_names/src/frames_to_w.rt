//! Commands of a frame of HP-GL/2, `QL` to `WU`.
ghost use Rattle.std.specs.Prelude.{◌≡◌, map};
ghost use Rattle.command_names.specs.CommandNames.{texts_of};
ghost use Rattle.command_names.specs.declared.chapters.Chapter.TheVariants.{FramesToW};

/// The texts of this chapter.
#[tactic(auto, unfolding(crate::specs::CommandNames::texts_of))]
pub(crate) fn texts() -> &'static [&'static str]
    ensures { map (λ text. text.now) result.now ≡ texts_of FramesToW }
{
    &TEXTS
}

/// In the order of their keys.
pub(crate) const TEXTS: [&str; 24] = [
    "\
QL quality level (QL): refused
  Why:     it is of plotters, and printers pass over it
  Instead: take it out, or choose a plotter without it in the program
  Manual:  of the HP-GL/2 Reference Guide: Quality Level
",
    "\
RA fill rectangle absolute (RA): refused
  Why:     pclcheck does not follow the areas that are filled
  Instead: let the program draw lines alone, or fill by ESC *c#P
  Manual:  \"The Polygon Group\", Fill Rectangle Absolute
",
    "\
RF raster fill definition (RF): refused
  Why:     pclcheck does not follow the areas that are filled
  Instead: let the program draw lines alone, or fill by ESC *c#P
  Manual:  \"The Line and Fill Attributes Group\", Raster Fill Definition
",
    "\
RO rotate coordinate system (RO): refused
  Why:     it turns the coordinates
  Instead: let the program turn the drawing
  Manual:  \"The Configuration and Status Group\", Rotate Coordinate System
",
    "\
RP replot (RP): refused
  Why:     it is of plotters, and printers pass over it
  Instead: set copies by ESC &l#X
  Manual:  \"The Configuration and Status Group\"
",
    "\
RR fill rectangle relative (RR): refused
  Why:     pclcheck does not follow the areas that are filled
  Instead: let the program draw lines alone, or fill by ESC *c#P
  Manual:  \"The Polygon Group\", Fill Rectangle Relative
",
    "\
RT relative arc three point (RT): refused
  Why:     the printer draws the curve by steps of its own
  Instead: let the program draw curves as lines, by PD
  Manual:  \"The Vector Group\", Relative Arc Three Point
",
    "\
SA select alternate font (SA): refused
  Why:     pclcheck does not check the text of plots
  Instead: print the text in PCL, outside the frame, or let the program draw it
           as lines
  Manual:  \"The Character Group\", Select Alternate Font
",
    "\
SB scalable or bitmap fonts (SB): refused
  Why:     pclcheck does not check the text of plots
  Instead: print the text in PCL, outside the frame, or let the program draw it
           as lines
  Manual:  \"The Character Group\", Scalable or Bitmap Fonts
",
    "\
SC scale (SC): refused
  Why:     it changes what a unit of a coordinate is
  Instead: let the program give coordinates in plotter units of 0.025 mm
  Manual:  \"The Configuration and Status Group\", Scale
",
    "\
SD standard font definition (SD): refused
  Why:     pclcheck does not check the text of plots
  Instead: print the text in PCL, outside the frame, or let the program draw it
           as lines
  Manual:  \"The Character Group\", Standard Font Definition
",
    "\
SI absolute character size (SI): refused
  Why:     pclcheck does not check the text of plots
  Instead: print the text in PCL, outside the frame, or let the program draw it
           as lines
  Manual:  \"The Character Group\", Absolute Character Size
",
    "\
SL character slant (SL): refused
  Why:     pclcheck does not check the text of plots
  Instead: print the text in PCL, outside the frame, or let the program draw it
           as lines
  Manual:  \"The Character Group\", Character Slant
",
    "\
SM symbol mode (SM): refused
  Why:     pclcheck does not check the text of plots
  Instead: let the program draw symbols as lines
  Manual:  \"The Line and Fill Attributes Group\", Symbol Mode
",
    "\
SP select pen (SP): taken
  Does:    it selects no pen, 0, or the pen 1
  Values:  0, 1
  Finds:   10
  Manual:  \"The Line and Fill Attributes Group\", Select Pen
",
    "\
SR relative character size (SR): refused
  Why:     pclcheck does not check the text of plots
  Instead: print the text in PCL, outside the frame, or let the program draw it
           as lines
  Manual:  \"The Character Group\", Relative Character Size
",
    "\
SS select standard font (SS): refused
  Why:     pclcheck does not check the text of plots
  Instead: print the text in PCL, outside the frame, or let the program draw it
           as lines
  Manual:  \"The Character Group\", Select Standard Font
",
    "\
SV screened vectors (SV): refused
  Why:     it changes how lines look, and so where they print
  Instead: draw solid lines, with PW alone
  Manual:  \"The Line and Fill Attributes Group\", Screened Vectors
",
    "\
TD transparent data (TD): refused
  Why:     pclcheck does not check the text of plots
  Instead: print the text in PCL, outside the frame, or let the program draw it
           as lines
  Manual:  \"The Character Group\", Transparent Data
",
    "\
TR transparency mode (TR): refused
  Why:     it changes how marks mix with those below them
  Instead: leave it at 1, which is the default
  Manual:  \"The Line and Fill Attributes Group\", Transparency Mode
",
    "\
UL user-defined line type (UL): refused
  Why:     it changes how lines look, and so where they print
  Instead: draw solid lines, with PW alone
  Manual:  \"The Line and Fill Attributes Group\", User-Defined Line Type
",
    "\
VS velocity select (VS): refused
  Why:     it is of plotters, and printers pass over it
  Instead: take it out, or choose a plotter without it in the program
  Manual:  \"The Configuration and Status Group\"
",
    "\
WG fill wedge (WG): refused
  Why:     pclcheck does not follow the areas that are filled
  Instead: let the program draw lines alone, or fill by ESC *c#P
  Manual:  \"The Polygon Group\", Fill Wedge
",
    "\
WU pen width unit selection (WU): refused
  Why:     pclcheck takes pen widths in millimetres alone
  Instead: give pen widths in millimetres, by PW
  Manual:  \"The Line and Fill Attributes Group\", Pen Width Unit Selection
",
];
