//! Whether two readings of a job came to the same.
//!
//! The types compare as their derives do. Each function is known to tell equal values from others.
ghost use Rattle.std.specs.Prelude.{◌≡◌, ◌≢◌, IsFalse, IsTrue};

use page_env::Finding;
use pcl_items::LexCause;
use renderings::Outcome;
use verdict::Reason;

/// Whether the second reading of the job came to the same as the first.
pub(crate) fn is_same(outcome: Outcome, found: Outcome) -> bool
    ensures same { IsTrue result → outcome ≡ found }
    ensures other { IsFalse result → outcome ≢ found }
{
    match (outcome, found) {
        (Outcome::Done, Outcome::Done) => true,
        (
            Outcome::Fail {
                place,
                profile,
                finding,
            },
            Outcome::Fail {
                place: other_place,
                profile: other_profile,
                finding: other,
            },
        ) => place == other_place && profile == other_profile && is_same_reason(finding, other),
        _ => false,
    }
}

fn is_same_reason(a: Reason, b: Reason) -> bool
    ensures same { IsTrue result → a ≡ b }
    ensures other { IsFalse result → a ≢ b }
{
    match (a, b) {
        (Reason::Fault(a), Reason::Fault(b)) => is_same_cause(a, b),
        (Reason::Finding(a), Reason::Finding(b)) => is_same_finding(a, b),
        (Reason::Differs, Reason::Differs) | (Reason::Unpinnable, Reason::Unpinnable) => true,
        _ => false,
    }
}

fn is_same_cause(a: LexCause, b: LexCause) -> bool
    ensures same { IsTrue result → a ≡ b }
    ensures other { IsFalse result → a ≢ b }
{
    a == b
}

fn is_same_finding(a: Finding, b: Finding) -> bool
    ensures same { IsTrue result → a ≡ b }
    ensures other { IsFalse result → a ≢ b }
{
    a == b
}
