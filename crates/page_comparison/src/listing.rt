//! The differences that are kept while pages are compared.

ghost use Rattle.std.specs.Prelude.{◌≡◌, OnOk};
ghost use Rattle.page_comparison.specs.Comparison.{same_or, told_pages};
ghost use Rattle.page_comparison.specs.Kept.{
  kept_told,
  kept_with,
  none_kept,
  page_over,
  pair_kept,
};
ghost use Rattle.page_comparison.specs.Pages.{made_pair};

use crate::differences::{Differences, Most, PageComparison, PageDifference};
use crate::page::PagePair;
use sinks::Counts;
use std::alloc::{AllocError, Allocator};
use std::marker::Model;

/// The first differences, and how many pages differ.
#[derive(Drop)]
pub(crate) struct Listing<A: Allocator> {
    /// At most so many are kept.
    most: Most,
    listed: Vec<PageDifference, A>,
    /// Whether there are more than are kept.
    more: bool,
    /// Whether the page at hand differs.
    differs: bool,
    /// How many pages before it do; the count stands still at 2^64 - 1.
    pages: u64,
    /// The first of these.
    pairs: Vec<PagePair<A>, A>,
}

impl<A: Allocator> Model for Listing<A> {
    ghost use Rattle.std.specs.Prelude.{map};
    ghost use Rattle.page_comparison.specs.Kept.{Kept};
    ghost use Rattle.page_comparison.specs.Pages.{made_pair};

    ghost Value = { Kept };

    ghost view = { λ listing. record {
      most = listing.most;
      listed = listing.listed.items;
      more = listing.more;
      differs = listing.differs;
      pages = listing.pages;
      pairs = map made_pair listing.pairs.items;
    } };
}

impl<A: Allocator + Copy> Listing<A> {
    /// No differences, and at most so many to come.
    pub(crate) fn new(alloc: A, most: Most) -> Listing<A>
        ensures { result ≡ none_kept most }
    {
        Listing {
            most,
            listed: Vec::new(alloc),
            more: false,
            differs: false,
            pages: 0,
            pairs: Vec::new(alloc),
        }
    }
}

impl<A: Allocator> Listing<A> {
    /// Takes a difference of the page at hand.
    ///
    /// An error means that the allocator refused a request.
    pub(crate) fn tell(&mut self, difference: PageDifference) -> Result<(), AllocError>
        ensures { OnOk result (self.new ≡ kept_with difference self.old) }
    {
        self.differs = true;
        if self.listed.len() as u64 >= self.most.differences {
            self.more = true;
            return Ok(());
        }
        self.listed.push(difference)?;
        Ok(())
    }

    /// The page at hand is over: where it differs, and there is room for it, it is kept.
    ///
    /// An error means that the allocator refused a request.
    pub(crate) fn end_page(&mut self, pair: PagePair<A>) -> Result<(), AllocError>
        ensures { OnOk result (self.new ≡ page_over (made_pair pair) self.old) }
    {
        if !self.differs {
            return Ok(());
        }
        self.keep(pair)?;
        self.differs = false;
        self.pages = self.pages.saturating_add(1);
        Ok(())
    }

    /// Keeps a page, where there is room for it.
    fn keep(&mut self, pair: PagePair<A>) -> Result<(), AllocError>
        ensures { OnOk result (self.new
            ≡ record self.old { pairs = pair_kept (made_pair pair) self.old }) }
    {
        if self.pairs.len() as u64 >= self.most.pages {
            return Ok(());
        }
        self.pairs.push(pair)?;
        Ok(())
    }

    /// The differences that are listed.
    pub(crate) fn into_listed(self) -> Vec<PageDifference, A>
        ensures { result.items ≡ self.listed }
    {
        self.listed
    }

    /// What comes of two jobs that have so many pages and marks, of which all pages are over.
    pub(crate) fn into_comparison(self, counts: Counts) -> PageComparison<A>
        ensures { told_pages result ≡ same_or counts (kept_told self) }
    {
        if self.pages == 0 {
            return PageComparison::Same(counts);
        }
        PageComparison::Differs(Differences {
            listed: self.listed,
            more: self.more,
            pages: self.pages,
            pairs: self.pairs,
        })
    }
}
