//! Who says no to a job: the kind of each failure.
ghost use Rattle.std.specs.Prelude.{◌≡◌};
ghost use Rattle.job_reports.specs.Kinds.{cause_kind, finding_kind, is_unchecked, kind_name};
ghost use Rattle.job_reports.specs.Kinds.{kind_of, value_kind};

use crate::left_out::{LeftOut, left_out_of};
use judgement::FailingItem;
use page_env::Finding;
use pcl_items::LexCause;
use verdict::Reason;

/// Who says no to a job.
#[derive(Clone, Copy, Debug, PartialEq, Eq)]
pub enum Kind {
    /// pclcheck, which does not check this; printers may take it.
    Unchecked,
    /// Each printer: the bytes are wrong, or their order.
    Wrong,
    /// A printer, by its profile; another one may take it.
    Printer,
    /// Nobody, but what prints depends on how a panel stands.
    Panel,
    /// Nobody, but two printers of the fleet print it otherwise.
    Differs,
}

impl Kind {
    /// Its name, as objects have it.
    pub fn name(self) -> &'static str
        ensures { result.now ≡ kind_name self }
    {
        match self {
            Kind::Unchecked => "unchecked",
            Kind::Wrong => "wrong",
            Kind::Printer => "printer",
            Kind::Panel => "panel",
            Kind::Differs => "differs",
        }
    }

    /// Whether it is pclcheck that says no.
    pub fn is_unchecked(self) -> bool
        ensures { result ≡ is_unchecked self }
    {
        matches!(self, Kind::Unchecked)
    }
}

/// The kind of a failure by this reason, at this item.
pub fn kind_of(reason: Reason, failing_item: Option<FailingItem>) -> Kind
    ensures { result ≡ kind_of reason failing_item }
{
    match reason {
        Reason::Fault(cause) => cause_kind(cause),
        Reason::Finding(finding) => finding_kind(left_out_of(failing_item), finding),
        Reason::Differs => Kind::Differs,
        // In no check, but as a job is pinned.
        Reason::Unpinnable => Kind::Wrong,
    }
}

/// The kind of a fault of the bytes.
fn cause_kind(cause: LexCause) -> Kind
    ensures { result ≡ cause_kind cause }
{
    match cause {
        LexCause::Syntax => Kind::Wrong,
        LexCause::Truncated => Kind::Wrong,
        LexCause::NotInProfile(_) => Kind::Unchecked,
        LexCause::BadNumber => Kind::Unchecked,
        LexCause::Pjl => Kind::Unchecked,
        LexCause::EndInFrame => Kind::Wrong,
    }
}

/// The kind of a finding, where this is left out of the value at which it is.
fn finding_kind(left_out: Option<LeftOut>, finding: Finding) -> Kind
    ensures { result ≡ finding_kind left_out finding }
{
    match finding {
        Finding::BadValue => value_kind(left_out),
        Finding::NotOnDevice => Kind::Printer,
        Finding::Unset(_) => Kind::Panel,
        Finding::NoFont => Kind::Printer,
        Finding::NoGlyph(_) => Kind::Printer,
        Finding::OffPage => Kind::Printer,
        Finding::PastRightMargin => Kind::Printer,
        Finding::NotPrintable => Kind::Printer,
        Finding::StackFull => Kind::Wrong,
        Finding::StackEmpty => Kind::Wrong,
        Finding::NoMacro => Kind::Wrong,
        Finding::MacroDepth => Kind::Printer,
        Finding::MacroMemory => Kind::Printer,
        Finding::InMacro => Kind::Wrong,
        Finding::DefinitionOpen => Kind::Wrong,
        Finding::RasterNotStarted => Kind::Unchecked,
        Finding::RasterLocked => Kind::Wrong,
        Finding::RasterTooBig => Kind::Wrong,
        Finding::NoPen => Kind::Wrong,
        Finding::OutsideFrame => Kind::Wrong,
        Finding::EmptyRectangle => Kind::Wrong,
        Finding::Inexact => Kind::Unchecked,
        Finding::MarginIgnored => Kind::Wrong,
        Finding::RotatedRaster => Kind::Unchecked,
        // An error and no failure, where macros have a limit.
        Finding::ManyItems => Kind::Printer,
    }
}

/// The kind of a value that is not taken, of which this is left out.
fn value_kind(left_out: Option<LeftOut>) -> Kind
    ensures { result ≡ value_kind left_out }
{
    match left_out {
        Some(_) => Kind::Unchecked,
        None => Kind::Wrong,
    }
}
