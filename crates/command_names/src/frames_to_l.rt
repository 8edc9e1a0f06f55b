//! Commands of a frame of HP-GL/2, `EA` to `LT`.
ghost use Rattle.std.specs.Prelude.{◌≡◌, map};
ghost use Rattle.command_names.specs.CommandNames.{texts_of};
ghost use Rattle.command_names.specs.declared.chapters.Chapter.TheVariants.{FramesToL};

/// The texts of this chapter.
#[tactic(auto, unfolding(crate::specs::CommandNames::texts_of))]
pub(crate) fn texts() -> &'static [&'static str]
    ensures { map (λ text. text.now) result.now ≡ texts_of FramesToL }
{
    &TEXTS
}

/// In the order of their keys.
pub(crate) const TEXTS: [&str; 20] = [
    "\
EA edge rectangle absolute (EA): refused
  Why:     pclcheck checks lines of PD alone
  Instead: draw the four sides by PD
  Manual:  \"The Polygon Group\", Edge Rectangle Absolute
",
    "\
EC enable cutter (EC): refused
  Why:     it is of plotters, and printers pass over it
  Instead: take it out, or choose a plotter without it in the program
  Manual:  of the HP-GL/2 Reference Guide: Enable Cutter
",
    "\
EP edge polygon (EP): refused
  Why:     pclcheck checks lines of PD alone
  Instead: draw the sides by PD
  Manual:  \"The Polygon Group\", Edge Polygon
",
    "\
ER edge rectangle relative (ER): refused
  Why:     pclcheck checks lines of PD alone
  Instead: draw the four sides by PD
  Manual:  \"The Polygon Group\", Edge Rectangle Relative
",
    "\
ES extra space (ES): refused
  Why:     pclcheck does not check the text of plots
  Instead: print the text in PCL, outside the frame, or let the program draw it
           as lines
  Manual:  \"The Character Group\", Extra Space
",
    "\
EW edge wedge (EW): refused
  Why:     the printer draws the curve by steps of its own
  Instead: let the program draw curves as lines, by PD
  Manual:  \"The Polygon Group\", Edge Wedge
",
    "\
FI select primary font (FI): refused
  Why:     pclcheck does not check the text of plots
  Instead: print the text in PCL, outside the frame, or let the program draw it
           as lines
  Manual:  \"The Character Group\", Select Primary Font
",
    "\
FN select secondary font (FN): refused
  Why:     pclcheck does not check the text of plots
  Instead: print the text in PCL, outside the frame, or let the program draw it
           as lines
  Manual:  \"The Character Group\", Select Secondary Font
",
    "\
FP fill polygon (FP): refused
  Why:     pclcheck does not follow the areas that are filled
  Instead: let the program draw lines alone, or fill by ESC *c#P
  Manual:  \"The Polygon Group\", Fill Polygon
",
    "\
FR frame advance (FR): refused
  Why:     it is of plotters, and printers pass over it
  Instead: take it out, or choose a plotter without it in the program
  Manual:  of the HP-GL/2 Reference Guide: Frame Advance
",
    "\
FT fill type (FT): refused
  Why:     pclcheck does not follow the areas that are filled
  Instead: let the program draw lines alone, or fill by ESC *c#P
  Manual:  \"The Line and Fill Attributes Group\", Fill Type
",
    "\
IN initialize (IN): taken
  Does:    the pen is as at the start; the picture frame stays
  Manual:  \"The Configuration and Status Group\", Initialize
",
    "\
IP input P1 and P2 (IP): refused
  Why:     it changes what a unit of a coordinate is
  Instead: let the program give coordinates in plotter units of 0.025 mm
  Manual:  \"The Configuration and Status Group\", Input P1 and P2
",
    "\
IR input relative P1 and P2 (IR): refused
  Why:     it changes what a unit of a coordinate is
  Instead: let the program give coordinates in plotter units of 0.025 mm
  Manual:  \"The Configuration and Status Group\", Input Relative P1 and P2
",
    "\
IW input window (IW): refused
  Why:     it cuts what is drawn
  Instead: draw inside the picture frame, which 29 checks
  Manual:  \"The Configuration and Status Group\", Input Window
",
    "\
LA line attributes (LA): refused
  Why:     it changes how lines look, and so where they print
  Instead: draw solid lines, with PW alone
  Manual:  \"The Line and Fill Attributes Group\", Line Attributes
",
    "\
LB label (LB): refused
  Why:     pclcheck does not check the text of plots
  Instead: print the text in PCL, outside the frame, or let the program draw it
           as lines
  Manual:  \"The Character Group\", Label
",
    "\
LM label mode (LM): refused
  Why:     pclcheck does not check the text of plots
  Instead: print the text in PCL, outside the frame, or let the program draw it
           as lines
  Manual:  \"The Character Group\", Label Mode
",
    "\
LO label origin (LO): refused
  Why:     pclcheck does not check the text of plots
  Instead: print the text in PCL, outside the frame, or let the program draw it
           as lines
  Manual:  \"The Character Group\", Label Origin
",
    "\
LT line type (LT): refused
  Why:     it changes how lines look, and so where they print
  Instead: draw solid lines, with PW alone
  Manual:  \"The Line and Fill Attributes Group\", Line Type
",
];
