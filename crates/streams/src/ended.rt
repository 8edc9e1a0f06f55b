//! What the jobs that were ended had come to, under their names. Only proofs read it: it takes no
//! memory, and the methods do nothing at run time.
ghost use Rattle.std.specs.Prelude.{◌≡◌, List, [], ◌∷◌, ◌++◌};
ghost use Rattle.std.specs.Borrow.{ftrue};
ghost use Rattle.streams.specs.Ended.{JobRead, read_at_end};

use crate::given::Given;
use std::marker::Model;

/// The name of a job, what its reads gave, and whether a read failed.
#[derive(Drop)]
pub struct JobEnd<'a> {
    pub name: &'a [u8],
    pub given: Given,
    pub has_failed: bool,
}

/// The jobs that were ended so far. A clause reads them as `jobs`.
#[derive(Drop)]
pub struct Ended {
    pub ghost jobs: { List JobRead },
}

impl Model for Ended {
    ghost also_owns = { λ _. ftrue };
}

impl Ended {
    /// Before the first job.
    pub fn new() -> Ended
        ensures { result.jobs ≡ [] }
    {
        Ended {}
    }

    /// And then this job.
    pub fn and(&self, _job: &JobEnd<'_>) -> Ended
        ensures { result.jobs ≡ self.now.jobs ++ read_at_end _job.now ∷ [] }
    {
        Ended {}
    }
}
