//! Commands of rectangles, patterns and fonts of a job: those behind ESC `*c`.
ghost use Rattle.std.specs.Prelude.{◌≡◌, map};
ghost use Rattle.command_names.specs.CommandNames.{texts_of};
ghost use Rattle.command_names.specs.declared.chapters.Chapter.TheVariants.{Rectangles};

/// The texts of this chapter.
#[tactic(auto, unfolding(crate::specs::CommandNames::texts_of))]
pub(crate) fn texts() -> &'static [&'static str]
    ensures { map (λ text. text.now) result.now ≡ texts_of Rectangles }
{
    &TEXTS
}

/// In the order of their keys.
pub(crate) const TEXTS: [&str; 20] = [
    "\
*c4P fill rectangular area 4, user-defined pattern (*c4P): refused
  Why:     it is of patterns, whose marks pclcheck does not follow
  Instead: fill by black, white, a shade or one of the six patterns, ESC *c0P
           to ESC *c3P
  Manual:  \"PCL Rectangular Area Fill Graphics\", Fill Rectangular Area
",
    "\
*c5P fill rectangular area 5, current pattern (*c5P): refused
  Why:     it is of patterns, whose marks pclcheck does not follow
  Instead: fill by black, white, a shade or one of the six patterns, ESC *c0P
           to ESC *c3P
  Manual:  \"PCL Rectangular Area Fill Graphics\", Fill Rectangular Area
",
    "\
*cA horizontal rectangle size in PCL units (*c#A): taken
  Does:    horizontal rectangle size in PCL units
  Values:  not negative
  Finds:   10
  Manual:  \"PCL Rectangular Area Fill Graphics\", Horizontal Rectangle Size (PCL
           Units)
",
    "\
*cB vertical rectangle size in PCL units (*c#B): taken
  Does:    vertical rectangle size in PCL units
  Values:  not negative
  Finds:   10
  Manual:  \"PCL Rectangular Area Fill Graphics\", Vertical Rectangle Size (PCL
           Units)
",
    "\
*cD font ID (*c#D): refused
  Why:     it is of fonts that a job brings along, whose data are decoded by
           the printer
  Instead: let the driver use resident fonts of fixed pitch
  Manual:  \"Font Management\", Font ID
",
    "\
*cE character code (*c#E): refused
  Why:     it is of fonts that a job brings along, whose data are decoded by
           the printer
  Instead: let the driver use resident fonts of fixed pitch
  Manual:  \"Soft Font Creation\", Character Code
",
    "\
*cF font control (*c#F): refused
  Why:     it is of fonts that a job brings along, whose data are decoded by
           the printer
  Instead: let the driver use resident fonts of fixed pitch
  Manual:  \"Font Management\", Font Control
",
    "\
*cG pattern ID (*c#G): taken
  Does:    area fill id
  Values:  whole, 0 to 32767
  Finds:   10
  Manual:  \"PCL Rectangular Area Fill Graphics\", Pattern ID
",
    "\
*cH horizontal rectangle size in decipoints (*c#H): taken
  Does:    horizontal rectangle size in decipoints
  Values:  not negative
  Finds:   10
  Manual:  \"PCL Rectangular Area Fill Graphics\", Horizontal Rectangle Size
           (Decipoints)
",
    "\
*cK HP-GL/2 plot horizontal size (*c#K): refused
  Why:     it scales the frame
  Instead: give the plot the size of its picture frame, ESC *c#X and ESC *c#Y
  Manual:  \"The Picture Frame\", HP-GL/2 Plot Horizontal Size
",
    "\
*cL HP-GL/2 plot vertical size (*c#L): refused
  Why:     it scales the frame
  Instead: give the plot the size of its picture frame, ESC *c#X and ESC *c#Y
  Manual:  \"The Picture Frame\", HP-GL/2 Plot Vertical Size
",
    "\
*cP fill rectangular area (*c#P): taken
  Does:    fill rectangular area. The corner is at the cursor, which stays; a
           home becomes a number
  Values:  0, 1, 2, 3
  Reads:   Size, Orientation, Vmi at home
  Finds:   10, 12, 17, 30
  Manual:  \"PCL Rectangular Area Fill Graphics\", Fill Rectangular Area
",
    "\
*cQ pattern control (*c#Q): refused
  Why:     it is of patterns, whose marks pclcheck does not follow
  Instead: fill by black, white, a shade or one of the six patterns, ESC *c0P
           to ESC *c3P
  Manual:  \"The PCL Print Model\", Pattern Control
",
    "\
*cR symbol set ID (*c#R): refused
  Why:     it is of symbol sets that a job defines
  Instead: choose one of the printer's symbol sets, by ESC (#
  Manual:  \"User-Defined Symbol Sets\", Symbol Set ID Code
",
    "\
*cS symbol set control (*c#S): refused
  Why:     it is of symbol sets that a job defines
  Instead: choose one of the printer's symbol sets, by ESC (#
  Manual:  \"User-Defined Symbol Sets\", Symbol Set Control
",
    "\
*cT set picture frame anchor point (*c#T): taken
  Does:    picture frame anchor point: the upper left corner of the frame is at
           the cursor, a home of which becomes a number
  Values:  0
  Reads:   Vmi at home
  Finds:   10, 12
  Manual:  \"The Picture Frame\", Set Picture Frame Anchor Point
",
    "\
*cV vertical rectangle size in decipoints (*c#V): taken
  Does:    vertical rectangle size in decipoints
  Values:  not negative
  Finds:   10
  Manual:  \"PCL Rectangular Area Fill Graphics\", Vertical Rectangle Size
           (Decipoints)
",
    "\
*cW user-defined pattern (*c#W): refused
  Why:     its data are decoded by the printer
  Instead: fill by black, white, a shade or one of the six patterns, ESC *c0P
           to ESC *c3P
  Manual:  \"The PCL Print Model\", Define Pattern
",
    "\
*cX horizontal picture frame size (*c#X): taken
  Does:    picture frame horizontal size in decipoints
  Values:  more than 0
  Finds:   10
  Manual:  \"The Picture Frame\", Picture Frame Horizontal Size
",
    "\
*cY vertical picture frame size (*c#Y): taken
  Does:    picture frame vertical size in decipoints
  Values:  more than 0
  Finds:   10
  Manual:  \"The Picture Frame\", Picture Frame Vertical Size
",
];
