//! The printers that jobs are checked for.
ghost use Rattle.std.specs.Prelude.{◌≡◌, [], get_or, map};
ghost use Rattle.job_reports.specs.Groups.{group_at, group_count, of_group};

use device_profile::Profile;
use std::alloc::Allocator;
use std::marker::Model;

/// Printers with their names, which stand in the same order.
#[derive(Drop)]
pub struct PrinterGroup<'f, A: Allocator> {
    profiles: &'f [Profile<A>],
    /// The printers that notes are told for.
    note_printers: &'f [Profile<A>],
    names: &'f [Vec<u8, A>],
    is_each: bool,
}

impl<'f, A: Allocator> Model for PrinterGroup<'f, A> {
    ghost use Rattle.std.specs.Prelude.{map};
    ghost use Rattle.job_reports.specs.Groups.{Groups};

    ghost Value = { Groups };

    ghost view = { λ group. record {
      fleet = group.profiles.now;
      note_printers = group.note_printers.now;
      names = map (λ name. name.items) group.names.now;
      is_each = group.is_each;
    } };
}

impl<'f, A: Allocator> PrinterGroup<'f, A> {
    /// Printers, those that notes are told for, and the names; where `is_each` is set each printer
    /// has lines of its own, which name it.
    pub fn new(
        profiles: &'f [Profile<A>],
        note_printers: &'f [Profile<A>],
        names: &'f [Vec<u8, A>],
        is_each: bool,
    ) -> PrinterGroup<'f, A>
        ensures { result ≡ record {
          fleet = profiles.now;
          note_printers = note_printers.now;
          names = map (λ name. name.items) names.now;
          is_each = is_each;
        } }
    {
        PrinterGroup {
            profiles,
            note_printers,
            names,
            is_each,
        }
    }

    /// The profiles.
    pub fn profiles(&self) -> &'f [Profile<A>]
        ensures { result.now ≡ self.now.fleet }
    {
        self.profiles
    }

    /// The printers that notes are told for.
    pub fn note_printers(&self) -> &'f [Profile<A>]
        ensures { result.now ≡ self.now.note_printers }
    {
        self.note_printers
    }

    /// The names.
    pub fn names(&self) -> &'f [Vec<u8, A>]
        ensures { map (λ name. name.items) result.now ≡ self.now.names }
    {
        self.names
    }

    /// The name of the first printer, or nothing where there is none.
    pub fn first_name(&self) -> &'f [u8]
        ensures { result.now ≡ get_or self.now.names 0 [] }
    {
        match self.names.first() {
            Some(name) => name.as_slice(),
            None => &[],
        }
    }

    /// Whether each printer has lines of its own.
    pub fn is_each(&self) -> bool
        ensures { result ≡ self.now.is_each }
    {
        self.is_each
    }

    /// In how many groups the printers are checked: all together, or each by itself.
    pub fn count(&self) -> usize
        ensures { result ≡ group_count self.now }
    {
        if self.is_each { self.profiles.len() } else { 1 }
    }

    /// The group of this number, from 0.
    #[tactic(auto, using(crate::proofs::GroupFacts::map_of_group))]
    pub fn part(&self, number: usize) -> PrinterGroup<'f, A>
        ensures { result ≡ group_at self.now number }
    {
        PrinterGroup {
            profiles: of_group(self.is_each, self.profiles, number),
            note_printers: of_group(self.is_each, self.note_printers, number),
            names: of_group(self.is_each, self.names, number),
            is_each: self.is_each,
        }
    }
}

/// What a group has of all: where each is by itself the element of this number, else all.
fn of_group<T>(is_each: bool, all: &[T], number: usize) -> &[T]
    ensures { result.now ≡ of_group is_each all.now number }
{
    if !is_each {
        all
    } else if number < all.len() {
        &all[number..number + 1]
    } else {
        &[]
    }
}
