//! What can be wrong with a profile's text.
ghost use Rattle.std.specs.Prelude.{◌≡◌};
ghost use Rattle.profile_lint.specs.Faults.{has_faulty_line, is_on_line_of, is_same_key};

use device_profile::{Cause, Key};

/// Something that is wrong with a profile's text.
#[derive(Clone, Copy)]
pub enum TextFault {
    /// The text has more than 65,536 bytes.
    TooLong,
    /// The first line is neither `pclprofile 1` nor `pclprofile 2`.
    NoVersion,
    /// The line of this number, which counts from 1, is wrong. It has no key where the cause is
    /// `Unknown`.
    OnLine {
        number: u64,
        key: Option<Key>,
        cause: Cause,
    },
    /// No line has this key.
    Ungiven(Key),
    /// The panel may have this size, which is no page's.
    NoPageOfSize(u32),
    /// The panel may have this orientation, which is no page's.
    NoPageInOrientation(u32),
    /// Some page has this size and another has this orientation, and none has both.
    NoPair {
        size: u32,
        orientation: u32,
    },
    /// The panel may have the font of this id, which is no face's.
    NoFace(u32),
    /// The panel may take paper from this tray, which the device lacks.
    NoTray(u32),
    /// The panel may have these sides, for which the device has no duplex.
    NoSides(u32),
}

impl TextFault {
    ghost use Rattle.std.specs.Prelude.{◌≡◌};
    ghost use Rattle.profile_lint.specs.Faults.{cause_of, line_of};

    /// The number of the line, which counts from 1, or 0 where the whole is wrong.
    pub fn line(self) -> u64
        ensures { result ≡ line_of self }
    {
        match self {
            TextFault::NoVersion => 1,
            TextFault::OnLine { number, .. } => number,
            _ => 0,
        }
    }

    /// The cause, as `Profile::read` tells it.
    pub fn cause(self) -> Cause
        ensures { result ≡ cause_of self }
    {
        match self {
            TextFault::OnLine { cause, .. } => cause,
            TextFault::NoVersion => Cause::Version,
            TextFault::Ungiven(_) => Cause::Missing,
            TextFault::NoPageOfSize(_)
            | TextFault::NoPageInOrientation(_)
            | TextFault::NoPair { .. } => Cause::NoGeometry,
            TextFault::TooLong
            | TextFault::NoFace(_)
            | TextFault::NoTray(_)
            | TextFault::NoSides(_) => Cause::Range,
        }
    }
}

/// Whether the two are the same key.
fn is_same_key(a: Key, b: Key) -> bool
    ensures { result ≡ is_same_key a b }
{
    a.word() == b.word()
}

/// Whether a fault is one of a line of this key.
fn is_on_line_of(key: Key, fault: TextFault) -> bool
    ensures { result ≡ is_on_line_of key fault }
{
    match fault {
        TextFault::OnLine {
            key: Some(found),
            ..
        } => is_same_key(found, key),
        _ => false,
    }
}

/// Whether some line of this key is faulty.
pub(crate) fn has_faulty_line(on_lines: &[TextFault], key: Key) -> bool
    ensures { result ≡ has_faulty_line on_lines.now key }
{
    on_lines.iter().any(|fault| is_on_line_of(key, *fault))
}
