//! Printers of the texts of profiles that stand one behind another.
ghost use Rattle.std.specs.Prelude.{◌≡◌, ◌++◌, ◌∷◌, [], drop, take, IfErr, IfOk, OnOk};
ghost use Rattle.device_profile.specs.Name.{printer_name};
ghost use Rattle.foreign_calls.specs.Answers.{IsWhyOf};
ghost use Rattle.web_module.specs.Printers.{IsFleetOf, IsRefusedOf, IsWith, group_of, texts_of};

use device_profile::{Profile, printer_name};
use foreign_calls::{Why, read_printer};
use job_reports::PrinterGroup;
use std::alloc::{AllocError, Allocator};
use std::marker::Model;
use streams::Error;

/// Printers and their names, which stand in the same order.
#[derive(Drop)]
pub(crate) struct Printers<A: Allocator> {
    profiles: Vec<Profile<A>, A>,
    names: Vec<Vec<u8, A>, A>,
}

impl<A: Allocator> Model for Printers<A> {
    ghost use Rattle.std.specs.Prelude.{map};
    ghost use Rattle.web_module.specs.Printers.{Fleet};

    ghost Value = { Fleet };

    ghost view = { λ printers. record {
      printers = printers.profiles.items;
      names = map (λ name. name.items) printers.names.items;
    } };
}

impl<A: Allocator + Copy> Printers<A> {
    /// The printers that texts of these lengths describe, which stand one behind another; or why
    /// there are none.
    pub(crate) fn read(alloc: A, texts: &[u8], lengths: &[usize]) -> Result<Printers<A>, Why>
        ensures printers { IfOk result (IsFleetOf (texts_of lengths.now texts.now)) }
        ensures refused { IfErr result (IsRefusedOf (texts_of lengths.now texts.now)) }
    {
        let mut printers = Printers::none(alloc);
        let mut left = texts;
        for (i, length) in lengths.iter().enumerate() {
            let text = front(left, *length);
            let rest = behind(left, *length);
            match printers.add(alloc, text, i as u64 + 1) {
                Ok(()) => left = rest,
                Err(why) => return Err(why),
            }
        }
        Ok(printers)
    }

    /// No printer.
    fn none(alloc: A) -> Printers<A>
        ensures printers { result.printers ≡ [] }
        ensures names { result.names ≡ [] }
    {
        Printers {
            profiles: Vec::new(alloc),
            names: Vec::new(alloc),
        }
    }

    /// Adds the printer that a text describes, the one of this number, or tells why there is none.
    fn add(&mut self, alloc: A, text: &[u8], number: u64) -> Result<(), Why>
        ensures added { IfOk result (λ _. IsWith text.now self.old self.new) }
        ensures refused { IfErr result (IsWhyOf number text.now) }
    {
        let profile = match read_printer(alloc, text, number) {
            Ok(profile) => profile,
            Err(why) => return Err(why),
        };
        match self.push(alloc, profile, text) {
            Ok(()) => Ok(()),
            Err(_) => Err(Why::Stopped(Error::Memory)),
        }
    }

    /// Adds a printer, whose name stands in this text.
    fn push(&mut self, alloc: A, profile: Profile<A>, text: &[u8]) -> Result<(), AllocError>
        ensures printers { OnOk result
            (self.new.printers ≡ self.old.printers ++ profile ∷ []) }
        ensures names { OnOk result
            (self.new.names ≡ self.old.names ++ printer_name text.now ∷ []) }
    {
        let name = Vec::from_slice(alloc, printer_name(text))?;
        self.names.push(name)?;
        self.profiles.push(profile)?;
        Ok(())
    }

    /// All together, or the one by itself.
    pub(crate) fn group(&self, is_each: bool) -> PrinterGroup<'_, A>
        ensures { result ≡ group_of self.now is_each }
    {
        PrinterGroup::new(
            self.profiles.as_slice(),
            &[],
            self.names.as_slice(),
            is_each,
        )
    }
}

/// A text up to a length.
#[tactic(auto, using(std::proofs::lemmas::List::take_all))]
fn front(text: &[u8], length: usize) -> &[u8]
    ensures { result.now ≡ take length text.now }
{
    if length < text.len() {
        &text[..length]
    } else {
        text
    }
}

/// What stands behind that.
#[tactic(auto, using(std::proofs::lemmas::List::drop_all))]
fn behind(text: &[u8], length: usize) -> &[u8]
    ensures { result.now ≡ drop length text.now }
{
    if length < text.len() {
        &text[length..]
    } else {
        &[]
    }
}
