//! Commands of the rows of a raster: those behind ESC `*b`.
ghost use Rattle.std.specs.Prelude.{◌≡◌, map};
ghost use Rattle.command_names.specs.CommandNames.{texts_of};
ghost use Rattle.command_names.specs.declared.chapters.Chapter.TheVariants.{RasterRows};

/// The texts of this chapter.
#[tactic(auto, unfolding(crate::specs::CommandNames::texts_of))]
pub(crate) fn texts() -> &'static [&'static str]
    ensures { map (λ text. text.now) result.now ≡ texts_of RasterRows }
{
    &TEXTS
}

/// In the order of their keys.
pub(crate) const TEXTS: [&str; 11] = [
    "\
*b1M compression method 1, run-length (*b1M): refused
  Why:     its data are decoded by the printer
  Instead: turn compression off at the driver
  Manual:  \"Raster Graphics\", Set Compression Method
",
    "\
*b2M compression method 2, TIFF (*b2M): refused
  Why:     its data are decoded by the printer
  Instead: turn compression off at the driver
  Manual:  \"Raster Graphics\", Set Compression Method
",
    "\
*b3M compression method 3, delta row (*b3M): refused
  Why:     its data are decoded by the printer
  Instead: turn compression off at the driver
  Manual:  \"Raster Graphics\", Set Compression Method
",
    "\
*b5M compression method 5, adaptive (*b5M): refused
  Why:     its data are decoded by the printer
  Instead: turn compression off at the driver
  Manual:  \"Raster Graphics\", Set Compression Method
",
    "\
*b9M compression method 9, replacement delta row (*b9M): refused
  Why:     its data are decoded by the printer
  Instead: turn compression off at the driver
  Manual:  \"Raster Graphics\", Set Compression Method
",
    "\
*bM compression method (*b#M): taken
  Does:    how rows are compressed: not at all
  Values:  0
  Finds:   10
  Manual:  \"Raster Graphics\", Set Compression Method
",
    "\
*bS seed row source (*b#S): refused
  Why:     it chooses the row from which compressed rows differ
  Instead: turn compression off at the driver
  Manual:  \"Raster Graphics\"
",
    "\
*bV transfer raster data by plane (*b#V): refused
  Why:     it is of colour, which pclcheck does not check
  Instead: let the driver print in black, as for a monochrome printer
  Manual:  of the PCL 5 Color manual: Transfer Raster Data by Plane
",
    "\
*bW transfer raster data (*b#W): taken
  Does:    a row of the raster, of so many bytes
  Reads:   Size, Orientation, Vmi at home
  Finds:   12, 15, 17, 25, 27
  Manual:  \"Raster Graphics\", Transfer Raster Data
",
    "\
*bX padding of a row (*b#X): refused
  Why:     it is of DeskJet and color printers, which pclcheck does not check
  Instead: choose a driver for LaserJet printers
  Manual:  of the DeskJet developer's guides
",
    "\
*bY raster Y offset (*b#Y): taken
  Does:    raster Y offset: so many rows that stay white. A started raster has
           a vertical place, so the VMI is not read here
  Values:  whole, 0 to 32767
  Reads:   Size, Orientation, Vmi at home
  Finds:   10, 12, 15, 25, 27
  Manual:  \"Raster Graphics\", Raster Y Offset
",
];
