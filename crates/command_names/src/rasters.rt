//! Commands of rasters and of the status: those behind ESC `*r`, `*s` and `*t`.
ghost use Rattle.std.specs.Prelude.{◌≡◌, map};
ghost use Rattle.command_names.specs.CommandNames.{texts_of};
ghost use Rattle.command_names.specs.declared.chapters.Chapter.TheVariants.{Rasters};

/// The texts of this chapter.
#[tactic(auto, unfolding(crate::specs::CommandNames::texts_of))]
pub(crate) fn texts() -> &'static [&'static str]
    ensures { map (λ text. text.now) result.now ≡ texts_of Rasters }
{
    &TEXTS
}

/// In the order of their keys.
pub(crate) const TEXTS: [&str; 22] = [
    "\
*r2A start raster graphics 2, scaled at the left edge (*r2A): refused
  Why:     the printer scales the raster to a size
  Instead: send the raster at a resolution of the printer, unscaled
  Manual:  \"Raster Graphics\", Start Raster Graphics
",
    "\
*r3A start raster graphics 3, scaled at the cursor (*r3A): refused
  Why:     the printer scales the raster to a size
  Instead: send the raster at a resolution of the printer, unscaled
  Manual:  \"Raster Graphics\", Start Raster Graphics
",
    "\
*rA start raster graphics (*r#A): taken
  Does:    start raster graphics: 0 at the left edge of the logical page, 1 at
           the cursor. A home becomes a number
  Values:  0, 1
  Reads:   Size, Orientation, Vmi at home
  Finds:   10, 12, 26, 34
  Manual:  \"Raster Graphics\", Start Raster Graphics
",
    "\
*rB end raster graphics (*rB): taken
  Does:    it ends the raster
  Values:  0
  Finds:   10
  Manual:  \"Raster Graphics\", End Raster Graphics
",
    "\
*rC end raster graphics and compression (*rC): taken
  Does:    it ends the raster; rows have no compression then
  Values:  0
  Finds:   10
  Manual:  \"Raster Graphics\", End Raster Graphics
",
    "\
*rF raster graphics presentation mode (*r#F): taken
  Does:    raster graphics presentation: 0 as the logical page lies, 3 along
           the width of the physical page
  Values:  0, 3
  Finds:   10, 26
  Manual:  \"Raster Graphics\", Raster Graphics Presentation Mode
",
    "\
*rQ raster graphics quality (*r#Q): refused
  Why:     it is of DeskJet and color printers, which pclcheck does not check
  Instead: choose a driver for LaserJet printers
  Manual:  of the DeskJet developer's guides: Raster Graphics Quality
",
    "\
*rS raster width (*r#S): taken
  Does:    raster width, in pixels
  Values:  whole, from 1
  Finds:   10, 26
  Manual:  \"Raster Graphics\", Raster Width
",
    "\
*rT raster height (*r#T): taken
  Does:    raster height, in rows
  Values:  whole, from 1
  Finds:   10, 26
  Manual:  \"Raster Graphics\", Raster Height
",
    "\
*rU simple color (*r#U): refused
  Why:     it is of colour, which pclcheck does not check
  Instead: let the driver print in black, as for a monochrome printer
  Manual:  of the PCL 5 Color manual: Simple Color
",
    "\
*s status readback (*s): refused
  Why:     the printer answers the host, which a file of bytes cannot follow
  Instead: leave it out of jobs for a queue
  Manual:  \"Status Readback Commands\"
",
    "\
*sI inquire status readback entity (*s#I): refused
  Why:     the printer answers the host, which a file of bytes cannot follow
  Instead: leave it out of jobs for a queue
  Manual:  \"Status Readback Commands\", Inquire Status Readback Entity
",
    "\
*sM free space (*s#M): refused
  Why:     the printer answers the host, which a file of bytes cannot follow
  Instead: leave it out of jobs for a queue
  Manual:  \"Status Readback Commands\", Free Space
",
    "\
*sT set status readback location type (*s#T): refused
  Why:     the printer answers the host, which a file of bytes cannot follow
  Instead: leave it out of jobs for a queue
  Manual:  \"Status Readback Commands\", Set Status Readback Location Type
",
    "\
*sU set status readback location unit (*s#U): refused
  Why:     the printer answers the host, which a file of bytes cannot follow
  Instead: leave it out of jobs for a queue
  Manual:  \"Status Readback Commands\", Set Status Readback Location Unit
",
    "\
*sX echo (*s#X): refused
  Why:     the printer answers the host, which a file of bytes cannot follow
  Instead: leave it out of jobs for a queue
  Manual:  \"Status Readback Commands\", Echo
",
    "\
*tH destination raster width (*t#H): refused
  Why:     it scales a raster
  Instead: send the raster at a resolution of the printer, unscaled
  Manual:  \"Raster Graphics\", Destination Raster Width
",
    "\
*tI gamma correction (*t#I): refused
  Why:     it is of colour, which pclcheck does not check
  Instead: let the driver print in black, as for a monochrome printer
  Manual:  of the PCL 5 Color manual: Gamma Correction
",
    "\
*tJ render algorithm (*t#J): refused
  Why:     it is of colour, which pclcheck does not check
  Instead: let the driver print in black, as for a monochrome printer
  Manual:  of the PCL 5 Color manual: Render Algorithm
",
    "\
*tK half toning (*t#K): refused
  Why:     it is of printers with several levels of a dot, which pclcheck does
           not check
  Instead: choose a driver for LaserJet printers
  Manual:  of the DeskJet developer's guides
",
    "\
*tR raster graphics resolution (*t#R): taken
  Does:    raster graphics resolution
  Values:  75, 100, 150, 200, 300, 600
  Finds:   10, 26
  Manual:  \"Raster Graphics\", Raster Graphics Resolution
",
    "\
*tV destination raster height (*t#V): refused
  Why:     it scales a raster
  Instead: send the raster at a resolution of the printer, unscaled
  Manual:  \"Raster Graphics\", Destination Raster Height
",
];
