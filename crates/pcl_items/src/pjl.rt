//! The printer job language: what its lines say.

/// What a line says behind `@PJL`, by the word of its command. A text is that of the job, without
/// blanks at both ends.
#[derive(Clone, Copy, Debug, PartialEq, Eq)]
pub enum PjlCommand<'a> {
    /// No word.
    Bare,
    /// `COMMENT`, and any text or none.
    Remark(&'a [u8]),
    /// `JOB`, and its names or none.
    JobBegins(&'a [u8]),
    /// `EOJ`, and its name or none.
    JobEnds(&'a [u8]),
    /// `ENTER LANGUAGE=PCL`
    EnterPcl,
}

/// The words of commands.
#[derive(Clone, Copy)]
pub enum Word {
    /// `COMMENT`
    Comment,
    /// `JOB`
    Job,
    /// `EOJ`
    EndOfJob,
    /// `ENTER`
    Enter,
}
