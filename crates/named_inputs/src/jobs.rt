//! Jobs under their names.
ghost use Rattle.std.specs.Prelude.{◌≡◌, ◌∷◌, ◌++◌, [], ℕ, List, IsFalse};
ghost use Rattle.streams.specs.Ended.{JobRead, job_read};
ghost use Rattle.streams.specs.Source.{SourceState};

use streams::Source;

/// Jobs under the words that name them.
pub trait Jobs<'n> {
    /// What a job is read from.
    type Job: Source + Drop;

    // What the source of a name is like before its first read.
    ghost start: { Self → List ℕ → SourceState };

    // The source is the one that this name stands for.
    ghost is_named: { Self.Job → List ℕ → Type 0 };

    // What the jobs that were ended had come to under their names, in their order.
    ghost ended: { Self → List JobRead };

    /// The job that a word names, of which nothing is read yet.
    fn job(&self, name: &'n [u8]) -> Self::Job
        ensures working { IsFalse (Self.Job.state result).failed }
        ensures start { Self.Job.state result ≡ start self.now name.now }
        ensures named { is_named result name.now };

    /// Ends the job of a name, of which no more is read.
    fn end(&mut self, name: &'n [u8], job: Self::Job)
        ensures ended { ended self.new ≡ ended self.old
            ++ job_read name.now (Self.Job.state job) ∷ [] }
        ensures start { start self.new ≡ start self.old };
}
