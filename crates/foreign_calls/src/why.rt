//! Why a call hands out nothing.
ghost use Rattle.std.specs.Prelude.{◌≡◌};
ghost use Rattle.foreign_calls.specs.Answers.{refusal_row, why_number, why_of};
ghost use Rattle.foreign_calls.specs.declared.why.Why.TheVariants.{Stopped};
ghost use Rattle.streams.specs.declared.error.Error.TheVariants.{Memory};

use crate::numbers::{
    NO_FIELD, NO_PAGE, NOT_ALLOWED, REFUSED, UNKNOWN, cause_number, error_number,
};
use crate::rows::Refusal;
use device_profile::{Cause, ProfileFault};
use std::alloc::{AllocError, AllocFailed};
use streams::Error;

/// Why a call hands out nothing.
#[derive(Clone, Copy, Debug, PartialEq, Eq)]
pub enum Why {
    /// Work stopped.
    Stopped(Error),
    /// The profile of this number is refused, at this line of its text.
    Refused {
        number: u64,
        line: u64,
        cause: Cause,
    },
    /// The panel may not have a value that is chosen.
    NotAllowed,
    /// A value is chosen for what is no field.
    NoField,
    /// The job does not have the page.
    NoPage,
    /// Nothing is known of the code.
    Unheard,
    /// The code is no UTF-8.
    NotText,
}

impl Why {
    /// The number that a call answers.
    pub fn number(self) -> u32
        ensures { result ≡ why_number self }
    {
        match self {
            Why::Stopped(error) => error_number(error),
            Why::Refused { .. } => REFUSED,
            Why::NotAllowed => NOT_ALLOWED,
            Why::NoField => NO_FIELD,
            Why::NoPage => NO_PAGE,
            Why::Unheard | Why::NotText => UNKNOWN,
        }
    }

    /// Tells of a profile that is refused, where that is why.
    pub fn tell(self, refusal: &mut Refusal)
        ensures { refusal.new ≡ refusal_row refusal.old self }
    {
        match self {
            Why::Refused {
                number,
                line,
                cause,
            } => {
                *refusal = Refusal {
                    number,
                    line,
                    cause: cause_number(cause),
                };
            }
            Why::Stopped(_)
            | Why::NotAllowed
            | Why::NoField
            | Why::NoPage
            | Why::Unheard
            | Why::NotText => {}
        }
    }

    /// Why the profile of this number is not had, by what is wrong with its text.
    pub fn of_fault(number: u64, fault: ProfileFault) -> Why
        ensures { result ≡ why_of number fault }
    {
        match fault {
            ProfileFault::Fault { line, cause } => Why::Refused {
                number,
                line,
                cause,
            },
            ProfileFault::Memory => Why::Stopped(Error::Memory),
        }
    }
}

impl From<Error> for Why {
    ghost from_gives = { λ error why. why ≡ Stopped error };

    fn from(error: Error) -> Why {
        Why::Stopped(error)
    }
}

impl From<AllocError> for Why {
    ghost from_gives = { λ _ why. why ≡ Stopped Memory };

    fn from(_error: AllocError) -> Why {
        Why::Stopped(Error::Memory)
    }
}

impl<T: Drop> From<AllocFailed<T>> for Why {
    ghost from_gives = { λ _ why. why ≡ Stopped Memory };

    fn from(_error: AllocFailed<T>) -> Why {
        Why::Stopped(Error::Memory)
    }
}
