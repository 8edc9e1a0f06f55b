//! pclcheck for other programs: functions that C calls.
//!
//! A call allocates by `malloc`, and before it returns it frees all that it allocated. What a fleet
//! or a session holds the caller frees, by `pclcheck_fleet_free` and `pclcheck_session_free`. No
//! call keeps a pointer behind its end, none prints, none ends the program, and nothing is kept
//! between calls but what these hold. So calls of several threads are safe whose fleets, sessions
//! and rooms are their own.
//!
//! A pointer is never null. Where a length stands behind it, so many bytes or rows lie there, and
//! of none any pointer serves. What a call writes to overlaps nothing else that it is given.
//!
//! A text goes into the room at `text`, and its length into `needed`. Where the room is too short
//! the answer is `ROOM`: nothing is written into it, and `needed` says how long it has to be.
//! Behind the text the room stays as it was; no zero byte ends it. After any other answer than
//! `DONE` and `ROOM` the room, `needed` and `verdict` are as they were. `refusal` is written where
//! the answer is `REFUSED` alone.
#![tactic(auto)]

ghost use Rattle.std.specs.Prelude.{◌≡◌, length, map, None, IfSome, IsSome};
ghost use Rattle.command_names.specs.CommandNames.{table};
ghost use Rattle.device_profile.specs.Name.{printer_name};
ghost use Rattle.profile_lint.specs.Lint.{faults_text};
ghost use Rattle.renderings.specs.Expected.{list_rendering, plain_rendering};
ghost use Rattle.foreign_calls.specs.Answers.{IsHanded, IsStop, IsWhyOf, Tells, filled, refusal_by};
ghost use Rattle.foreign_calls.specs.Answers.{room_number, row_by};
ghost use Rattle.foreign_calls.specs.Checked.{Checks, IsSentenceOf};
ghost use Rattle.foreign_calls.specs.Drawn.{IsPicture, MayDraw};
ghost use Rattle.foreign_calls.specs.Explained.{IsExplained, IsUnheard, code_asked};
ghost use Rattle.foreign_calls.specs.Texts.{IsNoted, IsPaged, IsPinned, IsWritten, MayPin};
ghost use Rattle.pclcheck_c.specs.Fleets.{Adds, IsMade, Limits, asked};
ghost use Rattle.pclcheck_c.specs.Sessions.{Begins, Ends, Feeds, GoesOn, OnHeld, Says};

mod checking;
mod fleet;
mod handle;
mod kept_session;
mod parts;
mod session_handle;

use crate::checking::{check, tell};
use crate::session_handle::begin;
use device_profile::printer_name;
use foreign_calls::{
    drawn, explained, faults, hand_out, leave_refusal, leave_row, list, noted, paged, pinned,
    plain, put,
};
pub use foreign_calls::{
    DONE, ITEMS, JUDGED, LONG, MEMORY, NO_FIELD, NO_PAGE, NO_PRINTER, NOT_ALLOWED, PanelValue,
    REFUSED, ROOM, Refusal, STOPPED, UNKNOWN, VERSION, VerdictRow,
};
pub use handle::FleetHandle;
use meanings::EXPLANATIONS;
pub use session_handle::SessionHandle;
use std::alloc::Global;

/// Puts the version of the library, as `0.1.0`.
///
/// The answer is `DONE` or `ROOM`.
#[unsafe(no_mangle)]
pub extern "C" fn pclcheck_version(text: &mut [u8], needed: &mut usize) -> u32
    ensures number { result ≡ room_number VERSION.now text.old }
    ensures text { text.new ≡ filled VERSION.now text.old }
    ensures needed { needed.new ≡ length VERSION.now }
{
    put(VERSION.as_bytes(), text, needed)
}

/// Puts what is known of a code: the number or the name of a fault, a finding or a note, or a
/// command by its key, its spelling or its name; of the code `commands` a list of the commands, and
/// of an empty code all explanations. It is what `pclcheck explain CODE` writes.
///
/// The answer is `DONE`, `ROOM`, `MEMORY`, or `UNKNOWN` where nothing has this number or name.
#[unsafe(no_mangle)]
pub extern "C" fn pclcheck_explain(
    alloc: Global,
    code: &[u8],
    text: &mut [u8],
    needed: &mut usize,
) -> u32
    ensures { Tells (IsExplained (map (λ text. text.now) EXPLANATIONS) table
        (code_asked code.now))
        (IsUnheard (map (λ text. text.now) EXPLANATIONS) table (code_asked code.now))
        (λ told. IsHanded told result text.old text.new needed.old needed.new) }
{
    hand_out(&explained(alloc, code), text, needed)
}

/// Puts the name that the text of a profile gives its printer, which sentences have; nothing where
/// it gives none.
///
/// The answer is `DONE` or `ROOM`.
#[unsafe(no_mangle)]
pub extern "C" fn pclcheck_printer_name(profile: &[u8], text: &mut [u8], needed: &mut usize) -> u32
    ensures number { result ≡ room_number (printer_name profile.now) text.old }
    ensures text { text.new ≡ filled (printer_name profile.now) text.old }
    ensures needed { needed.new ≡ length (printer_name profile.now) }
{
    put(printer_name(profile), text, needed)
}

/// Puts all that is wrong with the text of a profile, as `pclcheck profile lint` writes it: a line
/// for each fault, with its line in the text and the rule in words. The lines begin with this name
/// of the text. Of a profile there is nothing wrong, and nothing is put.
///
/// The answer is `DONE`, `ROOM` or `MEMORY`.
#[unsafe(no_mangle)]
pub extern "C" fn pclcheck_faults(
    alloc: Global,
    name: &[u8],
    profile: &[u8],
    text: &mut [u8],
    needed: &mut usize,
) -> u32
    ensures { Tells (λ told. told.text ≡ faults_text name.now profile.now) IsStop
        (λ told. IsHanded told result text.old text.new needed.old needed.new) }
{
    hand_out(&faults(alloc, name, profile), text, needed)
}

// ---- fleets

/// Makes a fleet of no printer, in place of none: `fleet` is all zero bytes, or was freed.
///
/// The answer is `DONE`, or `MEMORY`, and then there is still none.
#[unsafe(no_mangle)]
pub extern "C" fn pclcheck_fleet_new(alloc: Global, fleet: &mut FleetHandle) -> u32
    requires none { fleet.old.held ≡ None }
    ensures made { IsMade result fleet.old.held fleet.new.held }
{
    handle::make(alloc, fleet)
}

/// Limits how many items of a job macros may carry out on the printers that are added from here on,
/// as `pclcheck check --most-items` does. A job that passes the limit has no verdict: checks answer
/// `ITEMS`.
#[unsafe(no_mangle)]
pub extern "C" fn pclcheck_fleet_limit(alloc: Global, fleet: &mut FleetHandle, most_items: u64)
    requires open { IsSome fleet.old.held }
    ensures { Limits most_items fleet.old.held fleet.new.held }
{
    let mut held = fleet.take(alloc);
    held.limit(most_items);
    fleet.put(held);
}

/// Adds the printer that the text of a profile describes. The printers of a fleet count from 1, in
/// the order in which they were added.
///
/// The answer is `DONE`, `REFUSED` where the text is no profile, or `MEMORY`; after these two the
/// fleet is as it was.
#[unsafe(no_mangle)]
pub extern "C" fn pclcheck_fleet_add(
    alloc: Global,
    fleet: &mut FleetHandle,
    profile: &[u8],
    refusal: &mut Refusal,
) -> u32
    requires open { IsSome fleet.old.held }
    ensures open { IsSome fleet.new.held }
    ensures added { IfSome fleet.old.held (λ old. IfSome fleet.new.held (λ new.
        Adds profile.now result old new refusal.old refusal.new)) }
{
    let mut held = fleet.take(alloc);
    let number = held.add_telling(alloc, profile, refusal);
    fleet.put(held);
    number
}

/// Frees a fleet, and leaves none.
#[unsafe(no_mangle)]
pub extern "C" fn pclcheck_fleet_free(alloc: Global, fleet: &mut FleetHandle)
    requires open { IsSome fleet.old.held }
    ensures none { fleet.new.held ≡ None }
{
    drop(fleet.take(alloc));
}

// ---- checks

/// Checks a job for all printers of a fleet, or where `printer` is not 0 for the one of this number
/// by itself, as `pclcheck check` does, or `pclcheck check --each`. By itself a printer has the
/// number 1 in `verdict`.
///
/// The answer is `DONE`, `MEMORY`, `NO_PRINTER` where the fleet has none of this number, `ITEMS` or
/// `LONG`.
#[unsafe(no_mangle)]
pub extern "C" fn pclcheck_check(
    alloc: Global,
    fleet: &mut FleetHandle,
    printer: usize,
    job: &[u8],
    verdict: &mut VerdictRow,
) -> u32
    requires open { IsSome fleet.old.held }
    ensures kept { fleet.new.held ≡ fleet.old.held }
    ensures checked { IfSome fleet.old.held (λ held.
        Checks (asked held printer).fleet job.now result verdict.old verdict.new) }
{
    let held = fleet.take(alloc);
    let number = check(alloc, &held, printer, job, verdict);
    fleet.put(held);
    number
}

/// Checks a job as `pclcheck_check` does, and puts the sentence on it with its line end, which
/// begins with this name of the job.
///
/// The answer is one of `pclcheck_check`, or `ROOM`.
#[unsafe(no_mangle)]
pub extern "C" fn pclcheck_tell(
    alloc: Global,
    fleet: &mut FleetHandle,
    printer: usize,
    name: &[u8],
    job: &[u8],
    verdict: &mut VerdictRow,
    text: &mut [u8],
    needed: &mut usize,
) -> u32
    requires open { IsSome fleet.old.held }
    ensures kept { fleet.new.held ≡ fleet.old.held }
    ensures told { IfSome fleet.old.held (λ held.
        Tells (IsSentenceOf (asked held printer) name.now job.now) IsStop
        (λ told. IsHanded told result text.old text.new needed.old needed.new
        × (verdict.new ≡ row_by verdict.old told))) }
{
    let held = fleet.take(alloc);
    let told = tell(alloc, &held, printer, name, job);
    fleet.put(held);
    leave_row(&told, verdict);
    hand_out(&told, text, needed)
}

// ---- a job in pieces

/// Begins a check of a job that comes in pieces, for all printers of a fleet or the one of this
/// number by itself, as `pclcheck_check` does. It stands in place of none: `session` is all zero
/// bytes, or was freed. Until then the fleet stays, and no printer is added to it.
///
/// The answer is `DONE`, or `MEMORY` or `NO_PRINTER`, and then there is still none.
#[unsafe(no_mangle)]
pub extern "C" fn pclcheck_session_new(
    alloc: Global,
    fleet: &mut FleetHandle,
    printer: usize,
    session: &mut SessionHandle,
) -> u32
    requires open { IsSome fleet.old.held }
    requires none { session.old.held ≡ None }
    ensures kept { fleet.new.held ≡ fleet.old.held }
    ensures begun { IfSome fleet.old.held (λ held. Begins printer result held session.new.held) }
{
    let held = fleet.take(alloc);
    let number = begin(alloc, &held, printer, session);
    fleet.put(held);
    number
}

/// Takes the next piece of the job, of any length, for the fleet with which the session began. What
/// is kept of a job does not grow with it.
///
/// The answer is `DONE` while nothing is wrong; `JUDGED` once the verdict is certain, whatever
/// follows; or `MEMORY` or `LONG`, which ends the check. After those a piece changes nothing.
#[unsafe(no_mangle)]
pub extern "C" fn pclcheck_session_feed(
    alloc: Global,
    fleet: &mut FleetHandle,
    session: &mut SessionHandle,
    piece: &[u8],
) -> u32
    requires open { IsSome fleet.old.held }
    requires begun { IsSome session.old.held }
    requires going { GoesOn fleet.old.held session.old.held }
    ensures kept { fleet.new.held ≡ fleet.old.held }
    ensures fed { OnHeld fleet.old.held session.old.held session.new.held
        (Feeds piece.now result) }
{
    let held = fleet.take(alloc);
    let mut going = session.take(alloc);
    let number = going.feed(alloc, &held, piece);
    session.put(going);
    fleet.put(held);
    number
}

/// Ends the job, and tells the verdict on what was fed, whole. A call behind that tells it again.
///
/// The answer is `DONE`, `MEMORY`, `ITEMS` or `LONG`.
#[unsafe(no_mangle)]
pub extern "C" fn pclcheck_session_end(
    alloc: Global,
    fleet: &mut FleetHandle,
    session: &mut SessionHandle,
    verdict: &mut VerdictRow,
) -> u32
    requires open { IsSome fleet.old.held }
    requires begun { IsSome session.old.held }
    requires going { GoesOn fleet.old.held session.old.held }
    ensures kept { fleet.new.held ≡ fleet.old.held }
    ensures ended { OnHeld fleet.old.held session.old.held session.new.held
        (Ends result verdict.old verdict.new) }
{
    let held = fleet.take(alloc);
    let mut going = session.take(alloc);
    let number = going.end(alloc, &held, verdict);
    session.put(going);
    fleet.put(held);
    number
}

/// Ends the job as `pclcheck_session_end` does, and puts the sentence on it with its line end,
/// which begins with this name of the job. A call behind that, with more room, puts it again.
///
/// The answer is one of `pclcheck_session_end`, or `ROOM`.
#[unsafe(no_mangle)]
pub extern "C" fn pclcheck_session_tell(
    alloc: Global,
    fleet: &mut FleetHandle,
    session: &mut SessionHandle,
    name: &[u8],
    verdict: &mut VerdictRow,
    text: &mut [u8],
    needed: &mut usize,
) -> u32
    requires open { IsSome fleet.old.held }
    requires begun { IsSome session.old.held }
    requires going { GoesOn fleet.old.held session.old.held }
    ensures kept { fleet.new.held ≡ fleet.old.held }
    ensures told { OnHeld fleet.old.held session.old.held session.new.held
        (Says name.now (λ told. IsHanded told result text.old text.new needed.old needed.new
        × (verdict.new ≡ row_by verdict.old told))) }
{
    let held = fleet.take(alloc);
    let mut going = session.take(alloc);
    let told = going.tell(alloc, &held, name);
    session.put(going);
    fleet.put(held);
    leave_row(&told, verdict);
    hand_out(&told, text, needed)
}

/// Frees a session, be it ended or not, and leaves none.
#[unsafe(no_mangle)]
pub extern "C" fn pclcheck_session_free(alloc: Global, session: &mut SessionHandle)
    requires begun { IsSome session.old.held }
    ensures none { session.new.held ≡ None }
{
    drop(session.take(alloc));
}

// ---- texts of a job

/// Puts a line for each item of a job, as `pclcheck list` writes it. `verdict` tells the fault by
/// which it ends.
///
/// The answer is `DONE`, `ROOM`, `MEMORY` or `LONG`.
#[unsafe(no_mangle)]
pub extern "C" fn pclcheck_list(
    alloc: Global,
    job: &[u8],
    verdict: &mut VerdictRow,
    text: &mut [u8],
    needed: &mut usize,
) -> u32
    ensures { Tells (IsWritten list_rendering job.now) IsStop
        (λ told. IsHanded told result text.old text.new needed.old needed.new
        × (verdict.new ≡ row_by verdict.old told)) }
{
    let told = list(alloc, job);
    leave_row(&told, verdict);
    hand_out(&told, text, needed)
}

/// Puts the items of a job, each in its canonical spelling, as `pclcheck plain` writes it into OUT.
/// `verdict` tells the fault by which they end.
///
/// The answer is `DONE`, `ROOM`, `MEMORY` or `LONG`.
#[unsafe(no_mangle)]
pub extern "C" fn pclcheck_plain(
    alloc: Global,
    job: &[u8],
    verdict: &mut VerdictRow,
    text: &mut [u8],
    needed: &mut usize,
) -> u32
    ensures { Tells (IsWritten plain_rendering job.now) IsStop
        (λ told. IsHanded told result text.old text.new needed.old needed.new
        × (verdict.new ≡ row_by verdict.old told)) }
{
    let told = plain(alloc, job);
    leave_row(&told, verdict);
    hand_out(&told, text, needed)
}

/// Puts what a job leaves to the printer of a profile, as `pclcheck notes` writes it: a line for
/// each note, and last the line of what the job fails by, which `verdict` tells too.
///
/// The answer is `DONE`, `ROOM`, `REFUSED`, `MEMORY` or `LONG`.
#[unsafe(no_mangle)]
pub extern "C" fn pclcheck_notes(
    alloc: Global,
    profile: &[u8],
    job: &[u8],
    refusal: &mut Refusal,
    verdict: &mut VerdictRow,
    text: &mut [u8],
    needed: &mut usize,
) -> u32
    ensures { Tells (IsNoted profile.now job.now) (IsWhyOf 1 profile.now)
        (λ told. IsHanded told result text.old text.new needed.old needed.new
        × (verdict.new ≡ row_by verdict.old told)
        × (refusal.new ≡ refusal_by refusal.old told)) }
{
    let told = noted(alloc, profile, job);
    leave_refusal(&told, refusal);
    leave_row(&told, verdict);
    hand_out(&told, text, needed)
}

/// Puts the pages of a job on the printer of a profile, as `pclcheck pages` writes them: a line for
/// each mark and each end of a page, and last the line of what the job fails by, which `verdict`
/// tells too.
///
/// The answer is `DONE`, `ROOM`, `REFUSED`, `MEMORY` or `LONG`.
#[unsafe(no_mangle)]
pub extern "C" fn pclcheck_pages(
    alloc: Global,
    profile: &[u8],
    job: &[u8],
    refusal: &mut Refusal,
    verdict: &mut VerdictRow,
    text: &mut [u8],
    needed: &mut usize,
) -> u32
    ensures { Tells (IsPaged profile.now job.now) (IsWhyOf 1 profile.now)
        (λ told. IsHanded told result text.old text.new needed.old needed.new
        × (verdict.new ≡ row_by verdict.old told)
        × (refusal.new ≡ refusal_by refusal.old told)) }
{
    let told = paged(alloc, profile, job);
    leave_refusal(&told, refusal);
    leave_row(&told, verdict);
    hand_out(&told, text, needed)
}

/// Puts the picture of the page of this number, from 1, of a job on the printer of a profile, as
/// SVG; or for 0 all pages in a document of HTML: what `pclcheck picture` writes. Sentences in it
/// have this name of the job, which is UTF-8.
///
/// The answer is `DONE`, `ROOM`, `REFUSED`, `NO_PAGE`, `MEMORY`, `LONG`, or `UNKNOWN` where the
/// name is no UTF-8.
#[unsafe(no_mangle)]
pub extern "C" fn pclcheck_picture(
    alloc: Global,
    profile: &[u8],
    name: &[u8],
    page: u64,
    job: &[u8],
    refusal: &mut Refusal,
    text: &mut [u8],
    needed: &mut usize,
) -> u32
    ensures { Tells
        (λ told. IsPicture profile.now name.now job.now page told.text)
        (MayDraw profile.now name.now job.now page)
        (λ told. IsHanded told result text.old text.new needed.old needed.new
        × (refusal.new ≡ refusal_by refusal.old told)) }
{
    let told = drawn(alloc, profile, name, page, job);
    leave_refusal(&told, refusal);
    hand_out(&told, text, needed)
}

/// Puts a job pinned to the panel of the printer of a profile, as `pclcheck pin` writes it into
/// OUT: from its first panel, but for the values that are chosen. `verdict` tells by what it ends
/// too early.
///
/// The answer is `DONE`, `ROOM`, `REFUSED`, `NO_FIELD`, `NOT_ALLOWED`, `MEMORY` or `LONG`.
#[unsafe(no_mangle)]
pub extern "C" fn pclcheck_pin(
    alloc: Global,
    profile: &[u8],
    values: &[PanelValue],
    job: &[u8],
    refusal: &mut Refusal,
    verdict: &mut VerdictRow,
    text: &mut [u8],
    needed: &mut usize,
) -> u32
    ensures { Tells (IsPinned profile.now values.now job.now) (MayPin profile.now values.now)
        (λ told. IsHanded told result text.old text.new needed.old needed.new
        × (verdict.new ≡ row_by verdict.old told)
        × (refusal.new ≡ refusal_by refusal.old told)) }
{
    let told = pinned(alloc, profile, values, job);
    leave_refusal(&told, refusal);
    leave_row(&told, verdict);
    hand_out(&told, text, needed)
}
