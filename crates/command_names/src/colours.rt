//! Commands of colours: those behind ESC `*v`.
ghost use Rattle.std.specs.Prelude.{◌≡◌, map};
ghost use Rattle.command_names.specs.CommandNames.{texts_of};
ghost use Rattle.command_names.specs.declared.chapters.Chapter.TheVariants.{Colours};

/// The texts of this chapter.
#[tactic(auto, unfolding(crate::specs::CommandNames::texts_of))]
pub(crate) fn texts() -> &'static [&'static str]
    ensures { map (λ text. text.now) result.now ≡ texts_of Colours }
{
    &TEXTS
}

/// In the order of their keys.
pub(crate) const TEXTS: [&str; 10] = [
    "\
*v pattern, transparency or color (*v): refused
  Why:     it changes how marks mix with those below them
  Instead: leave the print model as it is, or let the driver print in black
  Manual:  \"The PCL Print Model\"
",
    "\
*vA color component one (*v#A): refused
  Why:     it is of colour, which pclcheck does not check
  Instead: let the driver print in black, as for a monochrome printer
  Manual:  of the PCL 5 Color manual: Color Components
",
    "\
*vB color component two (*v#B): refused
  Why:     it is of colour, which pclcheck does not check
  Instead: let the driver print in black, as for a monochrome printer
  Manual:  of the PCL 5 Color manual: Color Components
",
    "\
*vC color component three (*v#C): refused
  Why:     it is of colour, which pclcheck does not check
  Instead: let the driver print in black, as for a monochrome printer
  Manual:  of the PCL 5 Color manual: Color Components
",
    "\
*vI assign color index (*v#I): refused
  Why:     it is of colour, which pclcheck does not check
  Instead: let the driver print in black, as for a monochrome printer
  Manual:  of the PCL 5 Color manual: Assign Color Index
",
    "\
*vN source transparency mode (*v#N): refused
  Why:     it changes how marks mix with those below them
  Instead: leave it at 0, which is the default
  Manual:  \"The PCL Print Model\", Source Transparency Mode
",
    "\
*vO pattern transparency mode (*v#O): refused
  Why:     it changes how marks mix with those below them
  Instead: leave it at 0, which is the default
  Manual:  \"The PCL Print Model\", Pattern Transparency Mode
",
    "\
*vS foreground color (*v#S): refused
  Why:     it is of colour, which pclcheck does not check
  Instead: let the driver print in black, as for a monochrome printer
  Manual:  of the PCL 5 Color manual: Foreground Color
",
    "\
*vT select current pattern (*v#T): refused
  Why:     it is of patterns, whose marks pclcheck does not follow
  Instead: leave it at 0, which is black
  Manual:  \"The PCL Print Model\", Select Current Pattern
",
    "\
*vW configure image data (*v#W): refused
  Why:     it is of colour, which pclcheck does not check
  Instead: let the driver print in black, as for a monochrome printer
  Manual:  of the PCL 5 Color manual: Configure Image Data
",
];
