//! What can be wrong with a profile's text.
use std::alloc::{AllocError, AllocFailed};
use thiserror::Error;

/// What is wrong with a line of a profile's text, or with the whole.
#[derive(Clone, Copy, Debug, PartialEq, Eq)]
pub enum Cause {
    /// The first line is neither `pclprofile 1` nor `pclprofile 2`.
    Version,
    /// The line's first word is no key.
    Unknown,
    /// The line gives once more what was given before, or a value twice.
    Repeated,
    /// Something else in the line is not as its key wants it. Of the whole: the text has more than
    /// 65,536 bytes, or the panel offers a face, a tray or sides that the device does not have.
    Range,
    /// A key was not given, or no page or no face.
    Missing,
    /// A size or an orientation of the panel has no page, or a size of a page has none in an
    /// orientation of a page.
    NoGeometry,
}

/// Why a text gives no profile.
#[derive(Clone, Copy, Debug, PartialEq, Eq, Error)]
pub enum ProfileFault {
    /// The text is wrong at a line, counted from 1, or as a whole, with line 0.
    #[error("line {line} of the profile: {cause:?}")]
    Fault { line: u64, cause: Cause },
    /// The allocator refused a request.
    #[error("out of memory")]
    Memory,
}

impl From<AllocError> for ProfileFault {
    ghost use Rattle.std.specs.Prelude.{◌≡◌};
    ghost use Rattle.device_profile.specs.declared.fault.ProfileFault.TheVariants.{Memory};

    ghost from_gives = { λ _ fault. fault ≡ Memory };

    fn from(_: AllocError) -> ProfileFault {
        ProfileFault::Memory
    }
}

/// Why a line gives nothing.
#[derive(Clone, Copy, PartialEq, Eq)]
pub enum LineFault {
    /// The line is wrong.
    Wrong(Cause),
    /// The allocator refused a request.
    Memory,
}

impl LineFault {
    ghost use Rattle.std.specs.Prelude.{◌≡◌};
    ghost use Rattle.device_profile.specs.LineFault.{at_line};

    /// The fault of a text whose line of this number is faulty.
    pub(crate) fn at(self, line: u64) -> ProfileFault
        ensures { result ≡ at_line line self }
    {
        match self {
            LineFault::Wrong(cause) => ProfileFault::Fault { line, cause },
            LineFault::Memory => ProfileFault::Memory,
        }
    }
}

impl From<AllocError> for LineFault {
    ghost use Rattle.std.specs.Prelude.{◌≡◌};
    ghost use Rattle.device_profile.specs.declared.fault.LineFault.TheVariants.{Memory};

    ghost from_gives = { λ _ fault. fault ≡ Memory };

    fn from(_: AllocError) -> LineFault {
        LineFault::Memory
    }
}

impl<T: Drop> From<AllocFailed<T>> for LineFault {
    ghost use Rattle.std.specs.Prelude.{◌≡◌};
    ghost use Rattle.device_profile.specs.declared.fault.LineFault.TheVariants.{Memory};

    ghost from_gives = { λ _ fault. fault ≡ Memory };

    fn from(_: AllocFailed<T>) -> LineFault {
        LineFault::Memory
    }
}

impl From<Cause> for LineFault {
    ghost use Rattle.std.specs.Prelude.{◌≡◌};
    ghost use Rattle.device_profile.specs.declared.fault.LineFault.TheVariants.{Wrong};

    ghost from_gives = { λ cause fault. fault ≡ Wrong cause };

    fn from(cause: Cause) -> LineFault {
        LineFault::Wrong(cause)
    }
}
