//! A fleet: printers, with the names that sentences have.
ghost use Rattle.std.specs.Prelude.{◌≡◌, Some, IfErr, IfOk};
ghost use Rattle.device_profile.specs.Name.{printer_name};
ghost use Rattle.pclcheck_c.specs.Fleets.{Adds, HasNone, IsRefusedBy, IsWith, asked, groups_of};

use device_profile::{Profile, printer_name};
use foreign_calls::{DONE, Refusal, Why, read_limited};
use job_reports::PrinterGroup;
use std::alloc::{AllocError, Global};
use streams::Error;

/// Printers and their names, which stand in the same order.
#[derive(Drop)]
pub struct Fleet {
    pub profiles: Vec<Profile>,
    pub names: Vec<Vec<u8>>,
    /// How many items of a job macros may carry out on the printers that are added, where that is
    /// limited.
    pub most_items: Option<u64>,
}

impl Fleet {
    /// No printer.
    pub(crate) fn new(alloc: Global) -> Fleet
        ensures { HasNone result }
    {
        Fleet {
            profiles: Vec::new(alloc),
            names: Vec::new(alloc),
            most_items: None,
        }
    }

    /// Limits the items of macros on the printers that are added from here on.
    pub(crate) fn limit(&mut self, most: u64)
        ensures { self.new ≡ record self.old { most_items = Some most } }
    {
        self.most_items = Some(most);
    }

    /// Adds the printer that a text describes, or tells why there is none; then the printers are
    /// the same.
    pub(crate) fn add(&mut self, alloc: Global, text: &[u8]) -> Result<(), Why>
        ensures added { IfOk result (λ _. IsWith text.now self.old self.new) }
        ensures refused { IfErr result (IsRefusedBy text.now self.old self.new) }
    {
        let number = self.profiles.len() as u64 + 1;
        let profile = match read_limited(alloc, text, number, self.most_items) {
            Ok(profile) => profile,
            Err(why) => return Err(why),
        };
        let Ok(name) = name_in(alloc, text) else {
            return Err(Why::Stopped(Error::Memory));
        };
        if self.names.push(name).is_err() {
            return Err(Why::Stopped(Error::Memory));
        }
        if self.profiles.push(profile).is_err() {
            let _ = self.names.pop();
            return Err(Why::Stopped(Error::Memory));
        }
        Ok(())
    }

    /// The same, with the number of the call, and what is told of a text that is refused.
    pub(crate) fn add_telling(&mut self, alloc: Global, text: &[u8], refusal: &mut Refusal) -> u32
        ensures { Adds text.now result self.old self.new refusal.old refusal.new }
    {
        match self.add(alloc, text) {
            Ok(()) => DONE,
            Err(why) => {
                why.tell(refusal);
                why.number()
            }
        }
    }

    /// The printers that are asked for: all for 0, else the one of this number by itself.
    pub(crate) fn asked(&self, printer: usize) -> PrinterGroup<'_, Global>
        ensures { result ≡ asked self.now printer }
    {
        if printer == 0 {
            self.group(false)
        } else {
            self.group(true).part(printer - 1)
        }
    }

    fn group(&self, is_each: bool) -> PrinterGroup<'_, Global>
        ensures { result ≡ groups_of self.now is_each }
    {
        PrinterGroup::new(
            self.profiles.as_slice(),
            &[],
            self.names.as_slice(),
            is_each,
        )
    }
}

/// The name that a text gives its printer.
fn name_in(alloc: Global, text: &[u8]) -> Result<Vec<u8>, AllocError>
    ensures { IfOk result (λ name. name.items ≡ printer_name text.now) }
{
    Vec::from_slice(alloc, printer_name(text))
}
