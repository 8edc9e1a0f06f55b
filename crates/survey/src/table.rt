//! Refusals that are counted: a row for those that are alike, up to so many rows.

ghost use Rattle.std.specs.Prelude.{◌≡◌, ◌<◌, IfSome, None, OnOk, length, vec_len};
ghost use Rattle.std.specs.List.{position};
ghost use Rattle.survey.specs.Refusals.{is_same};
ghost use Rattle.survey.specs.Tally.{IsCountedAt, counted, first_row, no_refusals};
ghost use Rattle.survey.specs.Tally.{told_at, told_in};

use crate::refusal::Refusal;
use std::alloc::{AllocError, Allocator, Global};
use std::marker::Model;

/// The most rows. A job of a driver has some ten.
pub const MOST_ROWS: usize = 256;

/// Refusals that are alike. A count stands still at 2^64 - 1.
#[derive(Clone, Copy)]
pub struct Row {
    /// The first of them.
    pub first: Refusal,
    /// The number of its job, from 0.
    pub first_job: u64,
    pub times: u64,
    /// How many jobs have one.
    pub jobs: u64,
    /// The number of the last of these.
    pub last_job: u64,
}

impl Row {
    /// Of a refusal in the job of this number.
    fn of(job: u64, refusal: Refusal) -> Row
        ensures { result ≡ first_row job refusal }
    {
        Row {
            first: refusal,
            first_job: job,
            times: 1,
            jobs: 1,
            last_job: job,
        }
    }

    /// With one more in the job of this number.
    fn counted(self, job: u64) -> Row
        ensures { result ≡ counted job self }
    {
        let jobs = if self.last_job == job {
            self.jobs
        } else {
            self.jobs.saturating_add(1)
        };
        Row {
            times: self.times.saturating_add(1),
            jobs,
            last_job: job,
            ..self
        }
    }
}

/// The rows, in the order of their first refusals.
#[derive(Drop)]
pub struct Table<A: Allocator = Global> {
    rows: Vec<Row, A>,
    /// How many refusals there were for which no row is left.
    others: u64,
}

impl<A: Allocator> Model for Table<A> {
    ghost use Rattle.survey.specs.Tally.{Tally};

    ghost Value = { Tally };

    ghost view = { λ table. record {
      rows = table.rows.items;
      others = table.others;
    } };
}

impl<A: Allocator> Table<A> {
    /// Of no refusals.
    pub fn new(alloc: A) -> Table<A>
        ensures { result ≡ no_refusals }
    {
        Table {
            rows: Vec::new(alloc),
            others: 0,
        }
    }

    /// The rows.
    pub fn rows(&self) -> &[Row]
        ensures { result.now ≡ self.now.rows }
    {
        self.rows.as_slice()
    }

    /// How many refusals there were for which no row is left.
    pub fn others(&self) -> u64
        ensures { result ≡ self.now.others }
    {
        self.others
    }

    /// Counts a refusal in the job of this number.
    pub fn tell(&mut self, job: u64, refusal: Refusal) -> Result<(), AllocError>
        ensures { OnOk result (self.new ≡ told_in job refusal self.old) }
    {
        match row_of(self.rows.as_slice(), refusal) {
            Some(place) => {
                count_at(&mut self.rows, place, job);
                Ok(())
            }
            None => self.tell_new(job, refusal),
        }
    }

    /// Counts a refusal that is like none before.
    fn tell_new(&mut self, job: u64, refusal: Refusal) -> Result<(), AllocError>
        ensures { OnOk result (self.new ≡ told_at None job refusal self.old) }
    {
        if self.rows.len() >= MOST_ROWS {
            self.others = self.others.saturating_add(1);
            return Ok(());
        }
        self.rows.push(Row::of(job, refusal))?;
        Ok(())
    }
}

/// Counts one more in the row at a place.
fn count_at<A: Allocator>(rows: &mut Vec<Row, A>, place: usize, job: u64)
    requires { place < vec_len rows.old }
    ensures { IsCountedAt job place rows.old.items rows.new.items }
{
    count_in(rows.as_mut_slice(), place, job);
}

fn count_in(rows: &mut [Row], place: usize, job: u64)
    requires { place < length rows.old }
    ensures { IsCountedAt job place rows.old rows.new }
{
    rows[place] = rows[place].counted(job);
}

/// The place of the row of what is like this refusal.
fn row_of(rows: &[Row], refusal: Refusal) -> Option<usize>
    ensures place { result ≡ position (λ row. is_same row.first refusal) rows.now }
    ensures within { IfSome result (λ place. place < length rows.now) }
{
    rows.iter().position(|row| row.first.is_same(refusal))
}
