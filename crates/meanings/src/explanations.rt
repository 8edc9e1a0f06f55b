//! What faults, findings and notes mean.
ghost use Rattle.std.specs.Prelude.{map};
ghost use Rattle.meanings.specs.Explanations.{ExplainReasons};

/// The faults of a job's bytes, the findings of a printer and the notes of a job, in the order of
/// their numbers: for each its number and name, when it comes, who says no, or of a note what a
/// printer may do, what to change, and where HP's PCL 5 Printer Language Technical Reference Manual
/// treats of it.
///
/// `docs/make.py` makes of them what FINDINGS and the manual page tell.
pub const EXPLANATIONS: [&str; 46] = [
    "\
1 Syntax
  When:    A byte comes with which no escape sequence goes on, or a command
           with data is not the last of its combined sequence. In a frame: a
           byte comes with which no command begins or goes on, a letter that no
           letter follows, a comma that does not stand between two numbers, or
           a number without a digit.
  Kind:    wrong: no printer does this as it stands
  Change:  Correct the sequence at this place. If it is none, look before it: a
           count of data that is too small or too large lets data be read as
           commands.
  Manual:  \"Introduction to HP Printer Languages\", escape sequence syntax,
           combining escape sequences; \"An Introduction to HP-GL/2 Graphics\",
           HP-GL/2 syntax
",
    "\
2 Truncated
  When:    The bytes of the job end within an escape sequence or its data,
           behind a small letter of a combined sequence, within a command of a
           frame, or within a PJL line.
  Kind:    wrong: no printer does this as it stands
  Change:  Send the job to its end. If it is whole, correct the last count of
           data, end the last sequence by a capital letter, or end the PJL line
           by LF.
  Manual:  \"Introduction to HP Printer Languages\", escape sequence syntax,
           combining escape sequences
",
    "\
3 NotInProfile
  When:    A byte or a command comes that pclcheck does not check, or a form of
           one: ESC %#A and ESC %#B take 0 and 1 alone, ESC (#@ 3 alone. Its
           name stands in brackets: what is behind ESC without the value, or
           the two letters of a command of a frame; a byte that shows nothing
           is x and two digits to base 16.
  Kind:    unchecked: pclcheck does not check it, and printers may take it
  Change:  Take it out, or write the job with the commands that docs/SHOP.md
           lists under \"Which PCL\". The others are not done here, differ from
           printer to printer, or depend on what is left by earlier jobs.
  Manual:  \"Introduction to HP Printer Languages\", escape sequence syntax, and
           the section of the command that is named
",
    "\
4 BadNumber
  When:    A value field has more than 16 characters, a magnitude past 65535,
           or a decimal other than 0 behind the fourth; or a count of data is
           not whole, is negative, or is past 32767. In a frame also: a number
           is too many, a coordinate lacks its second one, is not whole, or is
           past 8388607, or a number of SP or PW is negative.
  Kind:    unchecked: pclcheck does not check it, and printers may take it
  Change:  Write the number within these limits. Split longer data over several
           commands, and give coordinates in pairs.
  Manual:  \"Introduction to HP Printer Languages\", escape sequence syntax; \"An
           Introduction to HP-GL/2 Graphics\", HP-GL/2 syntax
",
    "\
5 Pjl
  When:    Behind the universal exit ESC %-12345X a line begins with @ that is
           none of these: @PJL in capitals alone, or with COMMENT and a text,
           JOB with NAME or DISPLAY, EOJ with at most one NAME, or ENTER
           LANGUAGE=PCL. Or such a line has more than 1024 bytes with its LF.
  Kind:    unchecked: pclcheck does not check it, and printers may take it
  Change:  Where ENTER LANGUAGE names another language, leave the line in, and
           send the job to a queue for it. Else correct the line or take it
           out. What @PJL SET would set, which is the control panel's, the job
           sets by commands of its own.
  Manual:  \"PCL Job Control Commands\", Universal Exit Language; the lines are
           those of the Printer Job Language Technical Reference Manual
",
    "\
6 EndInFrame
  When:    The bytes end between the commands of a frame: the job does not
           leave HP-GL/2 mode.
  Kind:    wrong: no printer does this as it stands
  Change:  Leave the frame behind its last command, by ESC %0A or ESC %1A, or
           end the job by ESC E.
  Manual:  \"The Picture Frame\", Enter PCL Mode
",
    "\
10 BadValue
  When:    The command does not take this value: it is out of its range, it has
           decimals where it has to be whole, or a minus stands before it where
           the command is neither a move nor ESC (s#B. ESC *c2P and ESC *c3P
           need a fill id from 1 to 100 and from 1 to 6.
  Kind:    unchecked where HP's manual has the value and pclcheck does not
           check it, as ESC (s1P, ESC *b2M and decimals, or where a macro has
           it; else wrong: no printer takes it
  Change:  Give the command a value that it takes. Send rasters without
           compression, which is ESC *b0M, and choose fonts of fixed pitch,
           ESC (s0P.
  Manual:  The section of the command
",
    "\
11 NotOnDevice
  When:    The command takes this value, and the printer does not have it: no
           page of this size or this orientation, no such tray, or no duplex.
  Kind:    printer: its profile says no, and another printer may take it
  Change:  Choose a size, an orientation, a tray or sides that each printer
           has, or print elsewhere. If the printer does have it, add it to its
           profile: geometry, trays or duplex.
  Manual:  \"Page Control Commands\", Page Size, Logical Page Orientation, Paper
           (Media) Source; \"PCL Job Control Commands\", Simplex/Duplex Print
",
    "\
12 Unset
  When:    A setting of the control panel is read, whose name stands in
           brackets, which the job has not set since the last return to user
           defaults and for which the profile allows two or more values. What
           prints would depend on the panel.
  Kind:    panel: what prints depends on it
  Change:  Set it in the job, behind ESC E and before this place: Size by
           ESC &l#A, Orientation by ESC &l#O, Vmi by ESC &l#C or ESC &l#D and
           behind the orientation, which unsets it, Font by the symbol set and
           all of ESC (s#P, H, V, S, B and T, Copies by ESC &l#X, Sides by
           ESC &l#S, Tray by ESC &l#H, LineTerm by ESC &k#G. The command pin
           writes a job that sets all of it. If the panel always has one
           value, let the profile list it alone.
  Manual:  \"The Print Environment\", user defaults
",
    "\
13 NoFont
  When:    A font is read, and no resident face of the printer has all seven
           parts of the request: symbol set, spacing, pitch, height, style,
           stroke weight and typeface. Parts that the job did not set are those
           of the panel's font.
  Kind:    printer: its profile says no, and another printer may take it
  Change:  Ask for a face that each printer has, in all seven parts. If the
           printer does have it, add it to its profile as a face.
  Manual:  \"PCL Font Selection\", Symbol Set, Spacing, Pitch, Height, Style,
           Stroke Weight, Typeface Family
",
    "\
14 NoGlyph
  When:    A byte other than the space is printed as text, and the face in
           force has no character of this code.
  Kind:    printer: its profile says no, and another printer may take it
  Change:  Leave the byte out, or choose a face or a symbol set that has it. If
           the printer's face does have it, add its code to the face of the
           profile.
  Manual:  \"Fonts\", printable characters; \"PCL Font Selection\", Symbol Set,
           Transparent Print Data
",
    "\
15 OffPage
  When:    A place would lie outside the logical page: the target of a move,
           the place below a line feed where the perforation is not skipped,
           the place behind a character or a space that begins at or right of
           the right margin, the place below a row or a skip of a raster, or
           the pen's where the frame is left with ESC %1A.
  Kind:    printer: its profile says no, and another printer may take it
  Change:  Keep within the logical page of the size and the orientation in
           force. See that a move has a sign only where it is to go from the
           cursor, and that a vertical one without a sign counts from the top
           margin.
  Manual:  \"Cursor Positioning\", Horizontal Cursor Positioning, Vertical Cursor
           Positioning, Line Feed
",
    "\
16 PastRightMargin
  When:    A character or a space begins left of the right margin and leads
           past it. Where the job sets no right margin, it is the right edge of
           the logical page.
  Kind:    printer: its profile says no, and another printer may take it
  Change:  Begin a new line before it, move the right margin by ESC &a#M or
           ESC 9, or print narrower columns by ESC &k#H.
  Manual:  \"Page Control Commands\", Right Margin, Clear Horizontal Margins
",
    "\
17 NotPrintable
  When:    A mark does not lie inside the printable area of its page, edges
           allowed: a character, a rectangle, a row of a raster, or a line of a
           frame with the width of its pen.
  Kind:    printer: its profile says no, and another printer may take it
  Change:  Move it or make it smaller, so that the printable area of each
           printer holds it. The profile's geometry has that area, for each
           size and orientation.
  Manual:  \"Page Control Commands\", printable area
",
    "\
18 StackFull
  When:    ESC &f0S would push a cursor where 20 are pushed.
  Kind:    wrong: no printer does this as it stands
  Change:  Pop by ESC &f1S what was pushed, before more is.
  Manual:  \"Cursor Positioning\", Push/Pop Cursor Position
",
    "\
19 StackEmpty
  When:    ESC &f1S would pop a cursor where none is pushed. ESC E empties the
           stack, and an overlay begins with an empty one of its own.
  Kind:    wrong: no printer does this as it stands
  Change:  Push by ESC &f0S before each pop, behind the last reset and in the
           same overlay.
  Manual:  \"Cursor Positioning\", Push/Pop Cursor Position
",
    "\
20 NoMacro
  When:    A macro control 2, 3, 4 or 8 (execute, call, enable as overlay,
           delete) comes where the id in force has no macro, or control 1, the
           end of a definition, where none is open.
  Kind:    wrong: no printer does this as it stands
  Change:  Define the macro in this job before it is used, and set its id by
           ESC &f#Y before the control. ESC E deletes all macros, and those of
           earlier jobs do not count.
  Manual:  \"Macros\", Macro ID, Macro Control
",
    "\
21 MacroDepth
  When:    A body would run at a level past the depth of the printer's profile:
           one that the job begins is at level 1, one that a macro begins is a
           level deeper. Or a page is closed with an overlay enabled, and that
           depth is 0.
  Kind:    printer: its profile says no, and another printer may take it
  Change:  Write the inner macro out in the outer one. If the printer does nest
           deeper, correct depth in its profile.
  Manual:  \"Macros\", Macro Control
",
    "\
22 MacroMemory
  When:    An item of a definition would take all that is stored past the macro
           memory of the printer's profile. Items count as many bytes as their
           one spelling has, which 'pclcheck list' shows: a command of a
           combined sequence counts with its ESC and its group.
  Kind:    printer: its profile says no, and another printer may take it
  Change:  Make the macros shorter, or delete by ESC &f8X those that are not
           needed any more. If the printer does have more, correct memory in
           its profile.
  Manual:  \"Macros\", Macro Control
",
    "\
23 InMacro
  When:    A macro has a control that enables or disables an overlay or deletes
           (4 to 8). Or in a call or an overlay, or deeper in one, the paper is
           chosen (ESC &l#A, ESC &l#O, ESC &l#S, ESC &l#H). Or a page is closed
           in an overlay.
  Kind:    wrong: no printer does this as it stands
  Change:  Do this in the job, before or behind the macro. A macro that chooses
           the paper can be executed by ESC &f2X in place of a call.
  Manual:  \"Macros\", Macro Control
",
    "\
24 DefinitionOpen
  When:    ESC E, the universal exit, the macro control 0 or the end of the
           bytes comes while a macro definition is open.
  Kind:    wrong: no printer does this as it stands
  Change:  End the definition before it by ESC &f1X.
  Manual:  \"Macros\", Macro Control
",
    "\
25 RasterNotStarted
  When:    A row ESC *b#W or a skip ESC *b#Y comes where no raster is started.
           All items but those of ESC *t, ESC *r and ESC *b end a raster: text,
           control codes and cursor moves, too.
  Kind:    unchecked: pclcheck does not check it, and printers may take it
  Change:  Start a raster by ESC *r0A or ESC *r1A before the row, and send
           nothing else between its rows.
  Manual:  \"Raster Graphics\", Start Raster Graphics, Transfer Raster Data by
           Row, Raster Y Offset
",
    "\
26 RasterLocked
  When:    A start of a raster, or its resolution, width, height or
           presentation (ESC *r#A, ESC *t#R, ESC *r#S, ESC *r#T, ESC *r#F),
           comes while a raster is started.
  Kind:    wrong: no printer does this as it stands
  Change:  Set these before the start, and end the raster before by ESC *rB or
           ESC *rC.
  Manual:  \"Raster Graphics\", Start Raster Graphics, End Raster Graphics
",
    "\
27 RasterTooBig
  When:    A black pixel lies at or past the width that the job set for
           rasters, or a row or a skip goes past the height.
  Kind:    wrong: no printer does this as it stands
  Change:  Set the width by ESC *r#S and the height by ESC *r#T as large as the
           raster is, or send no more than that.
  Manual:  \"Raster Graphics\", Raster Width, Raster Height
",
    "\
28 NoPen
  When:    A line is drawn where pen 0 is selected, as it is until SP1 and
           behind IN. A pen that is lowered draws a line of no length, too.
  Kind:    wrong: no printer does this as it stands
  Change:  Select the pen by SP1 before it is lowered, or raise it by PU for
           moves.
  Manual:  \"The Line and Fill Attributes Group\", Select Pen
",
    "\
29 OutsideFrame
  When:    A line has an end that is not in the picture frame, edges allowed;
           or the pen goes further than 8388607 plotter units from the origin
           along an axis.
  Kind:    wrong: no printer does this as it stands
  Change:  Keep the drawing in the frame, or make the frame larger by ESC *c#X
           and ESC *c#Y, with its upper left corner set by ESC *c0T. It is as
           wide as the logical page and reaches from half an inch below its
           head to half an inch above its foot until the job sets it.
  Manual:  \"The Picture Frame\", Set Picture Frame Anchor Point, Horizontal
           Picture Frame Size, Vertical Picture Frame Size
",
    "\
30 EmptyRectangle
  When:    ESC *c#P comes where the width or the height of rectangles is 0, as
           both are until the job sets them.
  Kind:    wrong: no printer does this as it stands
  Change:  Set both before it: the width by ESC *c#A or ESC *c#H, the height by
           ESC *c#B or ESC *c#V.
  Manual:  \"PCL Rectangular Area Fill Graphics\", Horizontal Rectangle Size,
           Vertical Rectangle Size
",
    "\
31 Inexact
  When:    A move by columns or rows (ESC &a#C, ESC &a#R) goes a distance that
           is no whole number of ticks, of which an inch has 36576000000: its
           value and the HMI or the VMI have too many decimals together.
  Kind:    unchecked: pclcheck does not check it, and printers may take it
  Change:  Give the value, the HMI or the VMI fewer decimals, or move by
           decipoints or PCL units.
  Manual:  \"Cursor Positioning\", Horizontal Cursor Positioning (Columns),
           Vertical Cursor Positioning (Rows)
",
    "\
32 MarginIgnored
  When:    A margin is set that the printer would ignore: a top margin or a
           text length where the VMI is 0, or one that ends below the foot of
           the logical page; or a left or right margin past the right edge of
           the logical page, or with the left one not left of the right one.
  Kind:    wrong: no printer does this as it stands
  Change:  Set the VMI before, and margins that lie on the logical page. Move
           the right margin first where both go right, the left one first where
           both go left.
  Manual:  \"Page Control Commands\", Top Margin, Text Length, Left Margin, Right
           Margin
",
    "\
33 Differs
  When:    The job is right on each printer up to this place, but on the
           printer that is named this item prints other marks than on the first
           one, or at another place, or ends the page with another size,
           orientation, sides, tray or number of copies.
  Kind:    differs: two printers of the fleet print it otherwise
  Change:  Set in the job what the two panels choose differently. If the faces
           or the pages of the printers differ themselves, use those that are
           the same on both, or print on one of them.
  Manual:  \"The Print Environment\", user defaults
",
    "\
34 RotatedRaster
  When:    A raster is started with the presentation 3, along the width of the
           physical page, in an orientation other than 0. The presentation is 3
           until the job sets it.
  Kind:    unchecked: pclcheck does not check it, and printers may take it
  Change:  Send ESC *r0F before the start, so that the raster lies as the
           logical page does, or print in portrait.
  Manual:  \"Raster Graphics\", Raster Graphics Presentation
",
    "\
35 Unpinnable
  When:    A job is pinned that has ESC (3@, which returns to the font of the
           panel, or ESC &f4X, which enables an overlay: it begins with what
           the panel has.
  Kind:    wrong: there is no pinned job; no check finds it
  Change:  Leave the item out: ask for the font by its seven parts, or execute
           or call the macro on each page.
  Manual:  \"PCL Font Selection\", Default Font; \"Macros\", Enable Macro for
           Automatic Overlay
",
    "\
36 ManyItems
  When:    An item of a macro is due, and macros have carried out as many items
           of the job as are allowed. Each item of a macro counts each time, in
           an overlay, too. Only where their number is limited, as by check
           --most-items.
  Kind:    printer; but in a check it is an error, and no FAIL
  Change:  Send what macros repeat as items of the job, or fewer macros that
           call others; or allow more items.
  Manual:  \"Macros\", Macro Control
",
    "\
101 OpenStart
  When:    Something that prints, moves or sets stands before the first ESC E
           or universal exit of the job, or the job has none.
  Printer: It begins with what the job before left: margins, fonts, macros, a
           page that is not closed.
  Change:  Begin the job by ESC E, or by the universal exit ESC %-12345X.
  Manual:  \"PCL Job Control Commands\", Printer Reset, Universal Exit Language
",
    "\
102 OpenEnd
  When:    Something that prints, moves or sets stands behind the last ESC E or
           universal exit of the job, or the job has none.
  Printer: The last page may wait until more comes, the settings stay for the
           next job, and a second copy begins where the first one ended.
  Change:  End the job by ESC E, or by the universal exit ESC %-12345X.
  Manual:  \"PCL Job Control Commands\", Printer Reset, Universal Exit Language
",
    "\
103 NoPage
  When:    The job closes no page: nothing in it prints, and it has no form
           feed.
  Printer: Nothing comes out, or a page that the job before left open.
  Change:  See whether the job is whole. A job that only resets or sets is as
           it should be.
  Manual:  \"The Print Environment\", user defaults; \"Cursor Positioning\", Form
           Feed
",
    "\
104 PjlAsText
  When:    Text begins with @PJL: the mode is PCL there, and no universal exit
           stands directly before the line.
  Printer: It prints the line as text.
  Change:  Send ESC %-12345X directly before the first @PJL, with nothing
           between the two, and no CR or LF either.
  Manual:  \"PCL Job Control Commands\", Universal Exit Language
",
    "\
105 SameOrientation
  When:    ESC &l#O sets the orientation that is in force, and the VMI, the top
           margin or the left one is not what the command returns it to, or an
           HMI, a bottom margin or a right one is set, whatever its value.
  Printer: Some pass over a value that is in force, and keep VMI, HMI and
           margins; others return them to their defaults.
  Change:  Send the orientation once, before the spacing and the margins, or
           set these again behind it.
  Manual:  \"Page Control Commands\", Logical Page Orientation
",
    "\
106 RoundedColumn
  When:    Text is printed, or ESC &a#C, ESC &a#L or ESC &a#M is sent, where a
           column is no whole number of PCL units: the HMI, or where none is
           set the advance of the font.
  Printer: It may round each column to a PCL unit, so that text drifts from the
           columns that pclcheck reckons with.
  Change:  Choose a unit that divides the column, by ESC &u#D, or an HMI of
           whole units, by ESC &k#H.
  Manual:  \"Cursor Positioning\", Horizontal Motion Index; \"PCL Job Control
           Commands\", Unit of Measure
",
    "\
107 FractionOfUnit
  When:    ESC *p#X or ESC *p#Y has decimals other than 0.
  Printer: It may cut them, so that the cursor lies up to a unit beside the
           place that pclcheck reckons with.
  Change:  Send whole numbers, of a finer unit by ESC &u#D, or decipoints by
           ESC &a#H and ESC &a#V.
  Manual:  \"Cursor Positioning\", Horizontal Cursor Positioning (PCL Units),
           Vertical Cursor Positioning (PCL Units)
",
    "\
108 LaterLanguage
  When:    ESC &u#D is sent, or ESC *t#R with 200 or 600 pixels an inch.
  Printer: One before PCL 5e, as a LaserJet III, passes over the command: what
           comes then has other units or another resolution.
  Change:  Keep such printers out of the fleet, or leave the unit at 300 and
           the resolution at 75, 100, 150 or 300.
  Manual:  \"PCL Job Control Commands\", Unit of Measure; \"Raster Graphics\",
           Raster Graphics Resolution
",
    "\
109 ShortRaster
  When:    A raster with a height ends before its last row.
  Printer: It may leave the cursor below the whole height, where pclcheck
           leaves it below the last row that was sent.
  Change:  Send as many rows as the height says, by ESC *b#W or ESC *b#Y, or
           place the cursor behind the raster.
  Manual:  \"Raster Graphics\", Raster Height, End Raster Graphics
",
    "\
110 BlankOverflow
  When:    A line feed leads past the bottom margin of a page without a mark:
           LF, ESC =, or CR where it feeds a line.
  Printer: It may eject the page, which pclcheck does not count.
  Change:  End such a page by a form feed where it is wanted, or leave the line
           feeds out.
  Manual:  \"Page Control Commands\", Perforation Skip; \"Cursor Positioning\",
           Line Feed
",
    "\
111 SourceMovesLeft
  When:    ESC &l#H or ESC &l#S is sent where the left margin is not 0.
  Printer: It may leave the cursor at the left margin, where pclcheck moves it
           to the left edge of the logical page.
  Change:  Choose tray and sides before the margins, or place the cursor behind
           them.
  Manual:  \"Page Control Commands\", Paper (Media) Source; \"PCL Job Control
           Commands\", Simplex/Duplex Print
",
    "\
112 LongRun
  When:    An item of a macro is due, and macros have carried out a million
           items of the job. Each item of a macro counts each time, in an
           overlay, too. What follows is not looked at.
  Printer: It takes long, too: a job of a few hundred bytes can run for years.
  Change:  Send what macros repeat as items of the job, or fewer macros that
           call others.
  Manual:  \"Macros\", Macro Control
",
    "\
113 OtherLanguage
  When:    Text begins, where the job does or behind a reset, the universal
           exit or a line of the job language, with the bytes of a file in
           another language: %!PS, %PDF, ) HP as PCL XL has it, GIF8, or the
           first four of PNG or JPEG.
  Printer: It prints the bytes as text: pages of signs, one line over another.
  Change:  Send the file to a queue whose driver makes PCL of it, or print it
           from the program that it is of. Behind @PJL the line ENTER LANGUAGE
           has to name its language, and pclcheck does not check such a job.
  Manual:  \"PCL Job Control Commands\", Universal Exit Language
",
];

/// By the number of each fault, finding and note one explanation is asked for, and by its name the
/// same, which begins with the two; and each explanation is of one of them.
pub fn reasons_are_explained()
    ensures { ExplainReasons (map (λ text. text.now) EXPLANATIONS) }
{}
