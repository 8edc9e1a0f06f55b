//! Commands of fonts: those behind ESC `(` and ESC `)`.
ghost use Rattle.std.specs.Prelude.{◌≡◌, map};
ghost use Rattle.command_names.specs.CommandNames.{texts_of};
ghost use Rattle.command_names.specs.declared.chapters.Chapter.TheVariants.{Fonts};

/// The texts of this chapter.
#[tactic(auto, unfolding(crate::specs::CommandNames::texts_of))]
pub(crate) fn texts() -> &'static [&'static str]
    ensures { map (λ text. text.now) result.now ≡ texts_of Fonts }
{
    &TEXTS
}

/// In the order of their keys.
pub(crate) const TEXTS: [&str; 22] = [
    "\
(# primary symbol set ((#letter): taken
  Does:    the symbol set, by number and letter, as 10U
  Values:  not negative
  Finds:   10
  Manual:  \"PCL Font Selection\", Symbol Set
",
    "\
(@ primary default font ((3@): taken
  Does:    every part of the font is the panel's again
  Finds:   3
  Manual:  \"PCL Font Selection\", Default Font
",
    "\
(X primary font selection by ID ((#X): refused
  Why:     it is of fonts that a job brings along, whose data are decoded by
           the printer
  Instead: let the driver use resident fonts of fixed pitch
  Manual:  \"PCL Font Selection\", Font Selection by ID
",
    "\
(f define symbol set ((f#W): refused
  Why:     its data are decoded by the printer
  Instead: choose one of the printer's symbol sets, by ESC (#
  Manual:  \"User-Defined Symbol Sets\", Define Symbol Set
",
    "\
(s1P primary spacing 1, proportional ((s1P): refused
  Why:     each character has a width of its own, which profiles do not have
  Instead: choose fonts of fixed pitch, ESC (s0P
  Manual:  \"PCL Font Selection\", Spacing
",
    "\
(sB primary stroke weight ((s#B): taken
  Does:    the stroke weight, which may be negative
  Manual:  \"PCL Font Selection\", Stroke Weight
",
    "\
(sH primary pitch ((s#H): taken
  Does:    characters an inch
  Values:  not negative
  Finds:   10
  Manual:  \"PCL Font Selection\", Pitch
",
    "\
(sP primary spacing ((s#P): taken
  Does:    whether the font is fixed, 0
  Values:  0
  Finds:   10
  Manual:  \"PCL Font Selection\", Spacing
",
    "\
(sS primary style ((s#S): taken
  Does:    the style of the font
  Values:  not negative
  Finds:   10
  Manual:  \"PCL Font Selection\", Style
",
    "\
(sT primary typeface ((s#T): taken
  Does:    the typeface, by its number
  Values:  not negative
  Finds:   10
  Manual:  \"PCL Font Selection\", Typeface Family
",
    "\
(sV primary height ((s#V): taken
  Does:    points
  Values:  not negative
  Finds:   10
  Manual:  \"PCL Font Selection\", Height
",
    "\
(sW download character ((s#W): refused
  Why:     its data are decoded by the printer
  Instead: let the driver use resident fonts of fixed pitch
  Manual:  \"Soft Font Creation\", Character Definition
",
    "\
) secondary font, or downloaded font (ESC )): refused
  Why:     pclcheck checks jobs with one font at a time, and with resident
           fonts
  Instead: choose each font as the primary one, and let the driver use resident
           fonts
  Manual:  \"PCL Font Selection\"
",
    "\
)@ secondary default font ()3@): refused
  Why:     it is of the secondary font, and pclcheck checks jobs with one font
           at a time
  Instead: choose each font as the primary one, by ESC (s and ESC (#
  Manual:  \"PCL Font Selection\", Default Font
",
    "\
)X secondary font selection by ID ()#X): refused
  Why:     it is of fonts that a job brings along, whose data are decoded by
           the printer
  Instead: let the driver use resident fonts of fixed pitch
  Manual:  \"PCL Font Selection\", Font Selection by ID
",
    "\
)sB secondary stroke weight ()s#B): refused
  Why:     it is of the secondary font, and pclcheck checks jobs with one font
           at a time
  Instead: choose each font as the primary one, by ESC (s and ESC (#
  Manual:  \"PCL Font Selection\", Stroke Weight
",
    "\
)sH secondary pitch ()s#H): refused
  Why:     it is of the secondary font, and pclcheck checks jobs with one font
           at a time
  Instead: choose each font as the primary one, by ESC (s and ESC (#
  Manual:  \"PCL Font Selection\", Pitch
",
    "\
)sP secondary spacing ()s#P): refused
  Why:     it is of the secondary font, and pclcheck checks jobs with one font
           at a time
  Instead: choose each font as the primary one, by ESC (s and ESC (#
  Manual:  \"PCL Font Selection\", Spacing
",
    "\
)sS secondary style ()s#S): refused
  Why:     it is of the secondary font, and pclcheck checks jobs with one font
           at a time
  Instead: choose each font as the primary one, by ESC (s and ESC (#
  Manual:  \"PCL Font Selection\", Style
",
    "\
)sT secondary typeface ()s#T): refused
  Why:     it is of the secondary font, and pclcheck checks jobs with one font
           at a time
  Instead: choose each font as the primary one, by ESC (s and ESC (#
  Manual:  \"PCL Font Selection\", Typeface Family
",
    "\
)sV secondary height ()s#V): refused
  Why:     it is of the secondary font, and pclcheck checks jobs with one font
           at a time
  Instead: choose each font as the primary one, by ESC (s and ESC (#
  Manual:  \"PCL Font Selection\", Height
",
    "\
)sW download font header ()s#W): refused
  Why:     its data are decoded by the printer
  Instead: let the driver use resident fonts of fixed pitch
  Manual:  \"Soft Font Creation\", Font Header
",
];
