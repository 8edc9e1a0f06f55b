//! What is asked of the command `compare`.

ghost use Rattle.std.specs.Prelude.{◌≡◌, map};
ghost use Rattle.compare_command.specs.Compare.{asked_for, is_all, telling_of};
ghost use Rattle.compare_command.specs.Golden.{asked_by, golden_for, names_of};
ghost use Rattle.compare_command.specs.Telling.{told_by};

use crate::telling::Telling;
use requests::{Extent, Form, Nearness};

/// What is asked of a comparison of two jobs.
#[derive(Clone, Copy)]
pub struct CompareAsked<'a, 'n> {
    /// The names of both jobs.
    pub old_name: &'n str,
    pub new_name: &'n str,
    /// The words of the printers.
    pub printers: &'a [&'a str],
    pub form: Form,
    pub nearness: Nearness,
    pub extent: Extent,
    /// A line ends with the name of the new job, which is one of many.
    pub is_named: bool,
}

/// The names of two jobs that are compared.
#[derive(Clone, Copy)]
pub struct JobPair<'n> {
    pub old_name: &'n str,
    pub new_name: &'n str,
}

/// What is asked of comparisons of many jobs, each with one of its own.
#[derive(Clone, Copy)]
pub struct GoldenAsked<'a, 'n> {
    pub pairs: &'a [JobPair<'n>],
    /// The words of the printers.
    pub printers: &'a [&'a str],
    pub form: Form,
    pub nearness: Nearness,
    pub extent: Extent,
}

impl<'a, 'n> CompareAsked<'a, 'n> {
    /// How it is told what comes of the jobs on printers of these names.
    pub(crate) fn telling<'t>(&self, printers: &'t [Vec<u8>]) -> Telling<'n, 't>
        ensures { told_by result
            ≡ telling_of (asked_for self.now) (map (λ name. name.items) printers.now) }
    {
        Telling {
            old_name: self.old_name,
            new_name: self.new_name,
            printers,
            form: self.form,
            is_named: self.is_named,
            is_all: is_all(self.extent),
        }
    }
}

/// Whether all differences are told.
fn is_all(extent: Extent) -> bool
    ensures { result ≡ is_all extent }
{
    match extent {
        Extent::First => false,
        Extent::All { .. } => true,
    }
}

impl<'a, 'n> GoldenAsked<'a, 'n> {
    /// What is asked of a comparison of these two.
    pub(crate) fn of_pair(&self, pair: JobPair<'n>) -> CompareAsked<'a, 'n>
        ensures { asked_for result ≡ asked_by (golden_for self.now) (names_of pair.entry) }
    {
        CompareAsked {
            old_name: pair.old_name,
            new_name: pair.new_name,
            printers: self.printers,
            form: self.form,
            nearness: self.nearness,
            extent: self.extent,
            is_named: true,
        }
    }
}
