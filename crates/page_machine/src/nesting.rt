//! In what an item stands.

ghost use Rattle.std.specs.Prelude.{◌≡◌, ◌&&◌};
ghost use Rattle.page_env.specs.Answers.{sets_paper};
ghost use Rattle.page_machine.specs.Macros.{is_macro, fixes_paper, executed_in, called_in};

use device_profile::Profile;
use macro_store::MacroStore;
use page_env::{Env, PageChange};
use std::alloc::Allocator;

/// In what an item stands. What an executed body executes in turn stands in what it stands in
/// itself.
#[derive(Clone, Copy, PartialEq, Eq)]
pub enum Nesting {
    /// The job.
    Job,
    /// A body that is executed.
    Executed,
    /// A body that is called, or one below it.
    Called,
    /// An overlay, or a body below it.
    Overlaid,
}

impl Nesting {
    /// Whether it is a macro.
    pub(crate) fn is_macro(self) -> bool
        ensures { result ≡ is_macro self }
    {
        match self {
            Nesting::Job => false,
            Nesting::Executed | Nesting::Called | Nesting::Overlaid => true,
        }
    }

    /// Whether the paper of the page is fixed.
    fn fixes_paper(self) -> bool
        ensures { result ≡ fixes_paper self }
    {
        match self {
            Nesting::Job | Nesting::Executed => false,
            Nesting::Called | Nesting::Overlaid => true,
        }
    }

    /// Whether a change sets a paper that is fixed.
    pub(crate) fn refuses(self, change: PageChange) -> bool
        ensures { result ≡ (sets_paper change && fixes_paper self) }
    {
        change.sets_paper() && self.fixes_paper()
    }

    /// Where the items of an executed body stand.
    pub(crate) fn executed(self) -> Nesting
        ensures { result ≡ executed_in self }
    {
        match self {
            Nesting::Job => Nesting::Executed,
            Nesting::Executed | Nesting::Called | Nesting::Overlaid => self,
        }
    }

    /// Where the items of a called body stand.
    pub(crate) fn called(self) -> Nesting
        ensures { result ≡ called_in self }
    {
        match self {
            Nesting::Job | Nesting::Executed | Nesting::Called => Nesting::Called,
            Nesting::Overlaid => Nesting::Overlaid,
        }
    }
}

/// What surrounds an item: what does not change while an item of the job is carried out, and where
/// in it the item stands.
#[derive(Drop)]
pub struct Surroundings<'a, A: Allocator, B: Allocator + Copy> {
    pub profile: &'a Profile<A>,
    /// What a reset returns to.
    pub defaults: &'a Env,
    pub macros: &'a MacroStore<B>,
    pub nesting: Nesting,
    /// How many levels of macros may still be begun there.
    pub left: u32,
}
