//! Texts of profiles that are kept, and what is made of them for a check of many jobs.
ghost use Rattle.std.specs.Prelude.{◌≡◌, IfOk, map, true};
ghost use Rattle.device_profile.specs.Name.{printer_name};
ghost use Rattle.many_jobs.specs.KeptTexts.{AreNotePrinters};

use device_profile::{Profile, printer_name};
use notes::MOST_ITEMS;
use std::alloc::{AllocError, Allocator};

/// The names that texts of profiles give their printers.
pub fn printer_names<A: Allocator + Copy>(
    alloc: A,
    texts: &[Vec<u8, A>],
) -> Result<Vec<Vec<u8, A>, A>, AllocError>
    ensures { IfOk result (λ names. map (λ name. name.items) names.items ≡
        map printer_name (map (λ text. text.items) texts.now)) }
{
    let mut names = Vec::new(alloc);
    for text in texts {
        let mut name = Vec::new(alloc);
        name.extend_from_slice(printer_name(text.as_slice()))?;
        names.push(name)?;
    }
    Ok(names)
}

/// The printers that notes are told for: where they are told those of these texts.
pub fn note_printers<A: Allocator + Copy>(
    alloc: A,
    tells_notes: bool,
    texts: &[Vec<u8, A>],
) -> Result<Vec<Profile<A>, A>, AllocError>
    ensures { IfOk result (λ printers. AreNotePrinters tells_notes
        (map (λ text. text.items) texts.now) printers.items) }
{
    if tells_notes {
        read_note_printers(alloc, texts)
    } else {
        Ok(Vec::new(alloc))
    }
}

/// The printers of texts that were read before, whose macros may carry out `MOST_ITEMS` items of a
/// job.
fn read_note_printers<A: Allocator + Copy>(
    alloc: A,
    texts: &[Vec<u8, A>],
) -> Result<Vec<Profile<A>, A>, AllocError>
    ensures { IfOk result (λ printers. AreNotePrinters true
        (map (λ text. text.items) texts.now) printers.items) }
{
    let mut printers = Vec::new(alloc);
    for text in texts {
        // The text is that of a printer, so an error says that there is no memory.
        let Ok(mut printer) = Profile::read(alloc, text.as_slice()) else {
            return Err(AllocError);
        };
        printer.limit_items(Some(MOST_ITEMS));
        printers.push(printer)?;
    }
    Ok(printers)
}
