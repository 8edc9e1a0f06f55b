//! Commands of a frame of HP-GL/2, `AA` to `DV`.
ghost use Rattle.std.specs.Prelude.{◌≡◌, map};
ghost use Rattle.command_names.specs.CommandNames.{texts_of};
ghost use Rattle.command_names.specs.declared.chapters.Chapter.TheVariants.{FramesToD};

/// The texts of this chapter.
#[tactic(auto, unfolding(crate::specs::CommandNames::texts_of))]
pub(crate) fn texts() -> &'static [&'static str]
    ensures { map (λ text. text.now) result.now ≡ texts_of FramesToD }
{
    &TEXTS
}

/// In the order of their keys.
pub(crate) const TEXTS: [&str; 20] = [
    "\
AA arc absolute (AA): refused
  Why:     the printer draws the curve by steps of its own
  Instead: let the program draw curves as lines, by PD
  Manual:  \"The Vector Group\", Arc Absolute
",
    "\
AC anchor corner (AC): refused
  Why:     pclcheck does not follow the areas that are filled
  Instead: let the program draw lines alone, or fill by ESC *c#P
  Manual:  \"The Line and Fill Attributes Group\", Anchor Corner
",
    "\
AD alternate font definition (AD): refused
  Why:     pclcheck does not check the text of plots
  Instead: print the text in PCL, outside the frame, or let the program draw it
           as lines
  Manual:  \"The Character Group\", Alternate Font Definition
",
    "\
AR arc relative (AR): refused
  Why:     the printer draws the curve by steps of its own
  Instead: let the program draw curves as lines, by PD
  Manual:  \"The Vector Group\", Arc Relative
",
    "\
AT absolute arc three point (AT): refused
  Why:     the printer draws the curve by steps of its own
  Instead: let the program draw curves as lines, by PD
  Manual:  \"The Vector Group\", Absolute Arc Three Point
",
    "\
BP begin plot (BP): refused
  Why:     it is of plotters, and printers pass over it
  Instead: take it out, or choose a plotter without it in the program
  Manual:  \"The Configuration and Status Group\"
",
    "\
BR bezier relative (BR): refused
  Why:     the printer draws the curve by steps of its own
  Instead: let the program draw curves as lines, by PD
  Manual:  \"The Vector Group\", Bezier Relative
",
    "\
BZ bezier absolute (BZ): refused
  Why:     the printer draws the curve by steps of its own
  Instead: let the program draw curves as lines, by PD
  Manual:  \"The Vector Group\", Bezier Absolute
",
    "\
CF character fill mode (CF): refused
  Why:     pclcheck does not check the text of plots
  Instead: print the text in PCL, outside the frame, or let the program draw it
           as lines
  Manual:  \"The Character Group\", Character Fill Mode
",
    "\
CI circle (CI): refused
  Why:     the printer draws the curve by steps of its own
  Instead: let the program draw curves as lines, by PD
  Manual:  \"The Vector Group\", Circle
",
    "\
CO comment (CO): refused
  Why:     pclcheck reads no texts in frames
  Instead: take it out
  Manual:  \"The Configuration and Status Group\", Comment
",
    "\
CP character plot (CP): refused
  Why:     pclcheck does not check the text of plots
  Instead: print the text in PCL, outside the frame, or let the program draw it
           as lines
  Manual:  \"The Character Group\", Character Plot
",
    "\
CR set color range (CR): refused
  Why:     it is of colour, which pclcheck does not check
  Instead: use one black pen, SP1
  Manual:  of the PCL 5 Color manual: Set Color Range
",
    "\
CT chord tolerance mode (CT): refused
  Why:     it is of plotters, and printers pass over it
  Instead: take it out, or choose a plotter without it in the program
  Manual:  of the HP-GL/2 Reference Guide: Chord Tolerance Mode
",
    "\
DF default values (DF): refused
  Why:     pclcheck returns to defaults by IN alone
  Instead: send IN
  Manual:  \"The Configuration and Status Group\", Default Values
",
    "\
DI absolute direction (DI): refused
  Why:     pclcheck does not check the text of plots
  Instead: print the text in PCL, outside the frame, or let the program draw it
           as lines
  Manual:  \"The Character Group\", Absolute Direction
",
    "\
DL download character (DL): refused
  Why:     pclcheck does not check the text of plots
  Instead: print the text in PCL, outside the frame, or let the program draw it
           as lines
  Manual:  \"The Character Group\", Download Character
",
    "\
DR relative direction (DR): refused
  Why:     pclcheck does not check the text of plots
  Instead: print the text in PCL, outside the frame, or let the program draw it
           as lines
  Manual:  \"The Character Group\", Relative Direction
",
    "\
DT define label terminator (DT): refused
  Why:     pclcheck does not check the text of plots
  Instead: print the text in PCL, outside the frame, or let the program draw it
           as lines
  Manual:  \"The Character Group\", Define Label Terminator
",
    "\
DV define variable text path (DV): refused
  Why:     pclcheck does not check the text of plots
  Instead: print the text in PCL, outside the frame, or let the program draw it
           as lines
  Manual:  \"The Character Group\", Define Variable Text Path
",
];
