//! What is told of a job.
ghost use Rattle.std.specs.Prelude.{◌≡◌, ◌≤◌, ◌-◌, [], get_or};
ghost use Rattle.job_reports.specs.Reports.{
  failing_item_of,
  cursor_of,
  font_of,
  number_told,
  page_of,
  verdict_told,
};

use crate::groups::PrinterGroup;
use judgement::{FailingItem, Judgement, MissingFont, SheetSpot};
use std::alloc::Allocator;
use std::marker::Model;
use streams::Error;
use verdict::Verdict;

/// What came of a job for some printers.
#[derive(Drop)]
pub struct Report<'t, 'c, A: Allocator> {
    pub printers: &'t PrinterGroup<'t, A>,
    /// The name of the job.
    pub job: &'t [u8],
    pub answer: Result<Judgement, Error>,
    /// What the system says of a read that failed.
    pub cause: Option<&'c [u8]>,
}

impl<'t, 'c, A: Allocator> Model for Report<'t, 'c, A> {
    ghost use Rattle.std.specs.Prelude.{option_map};
    ghost use Rattle.job_reports.specs.Reports.{Reported};

    ghost Value = { Reported };

    ghost view = { λ report. record {
      is_each = report.printers.now.is_each;
      names = report.printers.now.names;
      job = report.job.now;
      answer = report.answer;
      cause = option_map (λ words. words.now) report.cause;
    } };
}

impl<'t, 'c, A: Allocator> Report<'t, 'c, A> {
    /// The answer without where the job fails.
    pub fn verdict(&self) -> Result<Verdict, Error>
        ensures { result ≡ verdict_told self.now.answer }
    {
        match self.answer {
            Ok(judgement) => Ok(judgement.verdict),
            Err(error) => Err(error),
        }
    }

    /// The item that the job fails at.
    pub fn failing_item(&self) -> Option<FailingItem>
        ensures { result ≡ failing_item_of self.now.answer }
    {
        match self.answer {
            Ok(judgement) => judgement.failing_item,
            Err(_) => None,
        }
    }

    /// The page on which the job fails.
    pub fn page(&self) -> Option<u64>
        ensures { result ≡ page_of self.now.answer }
    {
        match self.answer {
            Ok(judgement) => judgement.page,
            Err(_) => None,
        }
    }

    /// Where the cursor stood before the item that the job fails at.
    pub fn cursor(&self) -> Option<SheetSpot>
        ensures { result ≡ cursor_of self.now.answer }
    {
        match self.answer {
            Ok(judgement) => judgement.cursor,
            Err(_) => None,
        }
    }

    /// The font that no face of a printer answers.
    pub fn font(&self) -> Option<MissingFont>
        ensures { result ≡ font_of self.now.answer }
    {
        match self.answer {
            Ok(judgement) => judgement.font,
            Err(_) => None,
        }
    }

    /// The number of the printer that this is about, from 1, or 0 where it is about none alone.
    pub fn number_told(&self) -> u64
        ensures { result ≡ number_told self.now.is_each (verdict_told self.now.answer) }
    {
        match self.verdict() {
            _ if self.printers.is_each() => 1,
            Ok(Verdict::Fail { profile, .. }) => profile,
            Ok(Verdict::Pass { .. }) | Err(_) => 0,
        }
    }

    /// The name of the printer that this is about, or nothing where there are not so many.
    pub fn printer_name(&self) -> &'t [u8]
        requires { 1 ≤ number_told self.now.is_each (verdict_told self.now.answer) }
        ensures { result.now ≡ get_or self.now.names
            (number_told self.now.is_each (verdict_told self.now.answer) - 1) [] }
    {
        match self.printers.names().get((self.number_told() - 1) as usize) {
            Some(name) => name.as_slice(),
            None => &[],
        }
    }
}
