//! Lines of the job language, by their words.
ghost use Rattle.std.specs.Prelude.{◌≡◌, map};
ghost use Rattle.command_names.specs.CommandNames.{texts_of};
ghost use Rattle.command_names.specs.declared.chapters.Chapter.TheVariants.{JobLines};

/// The texts of this chapter.
#[tactic(auto, unfolding(crate::specs::CommandNames::texts_of))]
pub(crate) fn texts() -> &'static [&'static str]
    ensures { map (λ text. text.now) result.now ≡ texts_of JobLines }
{
    &TEXTS
}

/// In the order of their keys.
pub(crate) const TEXTS: [&str; 30] = [
    "\
COMMENT comment (@PJL COMMENT): taken
  Does:    it does nothing
  Values:  any text
  Manual:  of the PJL manual: \"Kernel Commands\"
",
    "\
DEFAULT default value (@PJL DEFAULT): refused
  Why:     it sets the panel for the jobs behind this one
  Instead: set it in the job, by the command of PCL
  Manual:  of the PJL manual: \"Environment Commands\"
",
    "\
DINQUIRE inquire default value (@PJL DINQUIRE): refused
  Why:     the printer answers the host, which a file of bytes cannot follow
  Instead: leave it out of jobs for a queue
  Manual:  of the PJL manual: \"Status Readback Commands\"
",
    "\
DMCMD device management command (@PJL DMCMD): refused
  Why:     its data manage the printer
  Instead: leave it out of jobs for a queue
  Manual:  of the PJL manual: \"Device Attendance Commands\"
",
    "\
DMINFO device management information (@PJL DMINFO): refused
  Why:     the printer answers the host, which a file of bytes cannot follow
  Instead: leave it out of jobs for a queue
  Manual:  of the PJL manual: \"Device Attendance Commands\"
",
    "\
ECHO echo (@PJL ECHO): refused
  Why:     the printer answers the host, which a file of bytes cannot follow
  Instead: leave it out of jobs for a queue
  Manual:  of the PJL manual: \"Status Readback Commands\"
",
    "\
ENTER enter language (@PJL ENTER): taken
  Does:    the bytes behind it are those of the printer language
  Values:  LANGUAGE=PCL
  Finds:   5
  Manual:  of the PJL manual: \"Kernel Commands\"
",
    "\
EOJ end of job (@PJL EOJ): taken
  Does:    it does nothing
  Values:  at most one NAME=\"text\"
  Finds:   5
  Manual:  of the PJL manual: \"Job Separation Commands\"
",
    "\
FSAPPEND append to a file (@PJL FSAPPEND): refused
  Why:     it is of files in the printer
  Instead: leave it out of jobs for a queue
  Manual:  of the PJL manual: \"PJL File System Commands\"
",
    "\
FSDELETE delete a file (@PJL FSDELETE): refused
  Why:     it is of files in the printer
  Instead: leave it out of jobs for a queue
  Manual:  of the PJL manual: \"PJL File System Commands\"
",
    "\
FSDIRLIST list files (@PJL FSDIRLIST): refused
  Why:     it is of files in the printer
  Instead: leave it out of jobs for a queue
  Manual:  of the PJL manual: \"PJL File System Commands\"
",
    "\
FSDOWNLOAD download a file (@PJL FSDOWNLOAD): refused
  Why:     it is of files in the printer
  Instead: leave it out of jobs for a queue
  Manual:  of the PJL manual: \"PJL File System Commands\"
",
    "\
FSINIT initialize a file system (@PJL FSINIT): refused
  Why:     it is of files in the printer
  Instead: leave it out of jobs for a queue
  Manual:  of the PJL manual: \"PJL File System Commands\"
",
    "\
FSMKDIR make a directory (@PJL FSMKDIR): refused
  Why:     it is of files in the printer
  Instead: leave it out of jobs for a queue
  Manual:  of the PJL manual: \"PJL File System Commands\"
",
    "\
FSQUERY query a file (@PJL FSQUERY): refused
  Why:     it is of files in the printer
  Instead: leave it out of jobs for a queue
  Manual:  of the PJL manual: \"PJL File System Commands\"
",
    "\
FSUPLOAD upload a file (@PJL FSUPLOAD): refused
  Why:     it is of files in the printer
  Instead: leave it out of jobs for a queue
  Manual:  of the PJL manual: \"PJL File System Commands\"
",
    "\
INFO information (@PJL INFO): refused
  Why:     the printer answers the host, which a file of bytes cannot follow
  Instead: leave it out of jobs for a queue
  Manual:  of the PJL manual: \"Status Readback Commands\"
",
    "\
INITIALIZE initialize variables (@PJL INITIALIZE): refused
  Why:     it sets what stands at the panel, and each printer has variables of
           its own
  Instead: take it out
  Manual:  of the PJL manual: \"Environment Commands\"
",
    "\
INQUIRE inquire value (@PJL INQUIRE): refused
  Why:     the printer answers the host, which a file of bytes cannot follow
  Instead: leave it out of jobs for a queue
  Manual:  of the PJL manual: \"Status Readback Commands\"
",
    "\
JOB job (@PJL JOB): taken
  Does:    it does nothing
  Values:  NAME=\"text\" and DISPLAY=\"text\"
  Finds:   5
  Manual:  of the PJL manual: \"Job Separation Commands\"
",
    "\
LANGUAGE=PCL3GUI enter PCL 3 GUI (@PJL ENTER LANGUAGE=PCL3GUI): refused
  Why:     its bytes are of a language of DeskJet printers, which pclcheck does
           not read
  Instead: choose a driver for PCL 5, whose jobs have LANGUAGE=PCL
  Manual:  of the PJL manual: \"Kernel Commands\"
",
    "\
LANGUAGE=PCLXL enter PCL XL (@PJL ENTER LANGUAGE=PCLXL): refused
  Why:     its bytes are those of PCL XL, that is PCL 6, which pclcheck does
           not read
  Instead: choose a driver for PCL 5, whose jobs have LANGUAGE=PCL
  Manual:  of the PJL manual: \"Kernel Commands\"
",
    "\
LANGUAGE=POSTSCRIPT enter PostScript (@PJL ENTER LANGUAGE=POSTSCRIPT): refused
  Why:     its bytes are those of PostScript, which pclcheck does not read
  Instead: choose a driver for PCL 5, whose jobs have LANGUAGE=PCL
  Manual:  of the PJL manual: \"Kernel Commands\"
",
    "\
OPMSG operator message (@PJL OPMSG): refused
  Why:     it writes on the printer's display, and the printer waits for its
           operator
  Instead: name the job by @PJL JOB DISPLAY
  Manual:  of the PJL manual: \"Device Attendance Commands\"
",
    "\
RDYMSG ready message (@PJL RDYMSG): refused
  Why:     it writes on the printer's display
  Instead: name the job by @PJL JOB DISPLAY
  Manual:  of the PJL manual: \"Device Attendance Commands\"
",
    "\
RESET reset (@PJL RESET): refused
  Why:     it sets what stands at the panel, and each printer has variables of
           its own
  Instead: take it out: ESC %-12345X resets the printer language
  Manual:  of the PJL manual: \"Environment Commands\"
",
    "\
SET set value (@PJL SET): refused
  Why:     it sets what stands at the panel, and each printer has variables of
           its own
  Instead: set it in the job, by the command of PCL
  Manual:  of the PJL manual: \"Environment Commands\"
",
    "\
STMSG status message (@PJL STMSG): refused
  Why:     it writes on the printer's display, and the printer may wait for its
           operator
  Instead: name the job by @PJL JOB DISPLAY
  Manual:  of the PJL manual: \"Device Attendance Commands\"
",
    "\
USTATUS unsolicited status (@PJL USTATUS): refused
  Why:     the printer answers the host, which a file of bytes cannot follow
  Instead: leave it out of jobs for a queue
  Manual:  of the PJL manual: \"Status Readback Commands\"
",
    "\
USTATUSOFF unsolicited status off (@PJL USTATUSOFF): refused
  Why:     the printer answers the host, which a file of bytes cannot follow
  Instead: leave it out of jobs for a queue
  Manual:  of the PJL manual: \"Status Readback Commands\"
",
];
