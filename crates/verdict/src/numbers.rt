//! The numbers of faults.
ghost use Rattle.std.specs.Prelude.{◌≡◌};
ghost use Rattle.verdict.specs.Numbers.{cause_number};

use pcl_items::LexCause;

/// The number of a fault.
pub fn cause_number(cause: LexCause) -> u8
    ensures { result ≡ cause_number cause }
{
    match cause {
        LexCause::Syntax => 1,
        LexCause::Truncated => 2,
        LexCause::NotInProfile(_) => 3,
        LexCause::BadNumber => 4,
        LexCause::Pjl => 5,
        LexCause::EndInFrame => 6,
    }
}
