//! Commands of devices, palettes and places: those behind ESC `*g` to `*p`.
ghost use Rattle.std.specs.Prelude.{◌≡◌, map};
ghost use Rattle.command_names.specs.CommandNames.{texts_of};
ghost use Rattle.command_names.specs.declared.chapters.Chapter.TheVariants.{Devices};

/// The texts of this chapter.
#[tactic(auto, unfolding(crate::specs::CommandNames::texts_of))]
pub(crate) fn texts() -> &'static [&'static str]
    ensures { map (λ text. text.now) result.now ≡ texts_of Devices }
{
    &TEXTS
}

/// In the order of their keys.
pub(crate) const TEXTS: [&str; 16] = [
    "\
*g configure raster data (*g#W): refused
  Why:     its data are decoded by the printer
  Instead: choose a driver for LaserJet printers
  Manual:  of the DeskJet developer's guides: Configure Raster Data
",
    "\
*i viewing illuminant (*i#W): refused
  Why:     it is of colour, which pclcheck does not check
  Instead: let the driver print in black, as for a monochrome printer
  Manual:  of the PCL 5 Color manual: Viewing Illuminant
",
    "\
*l print model, or color lookup tables (*l): refused
  Why:     it changes how marks mix with those below them
  Instead: leave the print model as it is
  Manual:  \"The PCL Print Model\"
",
    "\
*lO logical operation (*l#O): refused
  Why:     it changes how marks mix with those below them
  Instead: leave it at 252, which is the default
  Manual:  \"The PCL Print Model\", Logical Operation
",
    "\
*lR pixel placement (*l#R): refused
  Why:     it moves the edges of marks by a half pixel
  Instead: leave it at 0, which is the default
  Manual:  \"The PCL Print Model\", Pixel Placement
",
    "\
*lW color lookup tables (*l#W): refused
  Why:     it is of colour, which pclcheck does not check
  Instead: let the driver print in black, as for a monochrome printer
  Manual:  of the PCL 5 Color manual: Color Lookup Tables
",
    "\
*m download dither matrix (*m#W): refused
  Why:     it is of colour, which pclcheck does not check
  Instead: let the driver print in black, as for a monochrome printer
  Manual:  of the PCL 5 Color manual: Download Dither Matrix
",
    "\
*o print quality, or driver configuration (*o): refused
  Why:     it is of DeskJet and color printers, which pclcheck does not check
  Instead: choose a driver for LaserJet printers
  Manual:  of the DeskJet developer's guides, and of the PCL 5 Color manual:
           Driver Configuration Command
",
    "\
*oD raster graphics depletion (*o#D): refused
  Why:     it is of DeskJet and color printers, which pclcheck does not check
  Instead: choose a driver for LaserJet printers
  Manual:  of the DeskJet developer's guides: Raster Graphics Depletion
",
    "\
*oM print quality (*o#M): refused
  Why:     it is of DeskJet and color printers, which pclcheck does not check
  Instead: choose a driver for LaserJet printers
  Manual:  of the DeskJet developer's guides: Print Quality
",
    "\
*oQ raster graphics shingling (*o#Q): refused
  Why:     it is of DeskJet and color printers, which pclcheck does not check
  Instead: choose a driver for LaserJet printers
  Manual:  of the DeskJet developer's guides: Raster Graphics Shingling
",
    "\
*oW driver configuration (*o#W): refused
  Why:     its data are decoded by the printer
  Instead: choose a driver for LaserJet printers
  Manual:  of the PCL 5 Color manual: Driver Configuration Command
",
    "\
*pP push or pop palette (*p#P): refused
  Why:     it is of colour, which pclcheck does not check
  Instead: let the driver print in black, as for a monochrome printer
  Manual:  of the PCL 5 Color manual: Push/Pop Palette
",
    "\
*pR set pattern reference point (*p#R): refused
  Why:     it is of patterns, whose marks pclcheck does not follow
  Instead: leave patterns where the page has them
  Manual:  \"The PCL Print Model\", Set Pattern Reference Point
",
    "\
*pX horizontal cursor positioning by PCL units (*p#X): taken
  Does:    it moves to so many PCL units; with a sign, by so many
  Reads:   Size, Orientation
  Finds:   12, 15
  Manual:  \"Cursor Positioning\", Horizontal Cursor Positioning (PCL Units)
",
    "\
*pY vertical cursor positioning by PCL units (*p#Y): taken
  Does:    it moves to so many PCL units; with a sign, by so many
  Reads:   Size, Orientation, Vmi at home
  Finds:   12, 15
  Manual:  \"Cursor Positioning\", Vertical Cursor Positioning (PCL Units)
",
];
