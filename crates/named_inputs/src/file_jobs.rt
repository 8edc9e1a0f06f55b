//! Jobs that are files, and the one on standard input.
ghost use Rattle.std.specs.Prelude.{◌≡◌, ◌++◌, [], map};
ghost use Rattle.named_inputs.specs.FileJobs.{is_input, state_of_job};
ghost use Rattle.streams.specs.Used.{read_of_job};

use crate::jobs::Jobs;
use std::io;
use std::io::{Input, Read};
use std::marker::Model;
use std::rt::Files;
use streams::{Ended, FileSource, FilesUsed, Given, JobEnd, Latched, Source};

/// Whether a word names standard input.
pub fn is_input(name: &[u8]) -> bool
    ensures { result ≡ is_input name.now }
{
    name == b"-".as_slice()
}

/// The jobs at paths, and standard input under the name `-`.
#[derive(Drop)]
pub struct FileJobs<'a, R: Files + Input> {
    runtime: &'a R,
    ended: Ended,
}

impl<'a, R: Files + Input> Model for FileJobs<'a, R> {
    ghost use Rattle.std.specs.Prelude.{List};
    ghost use Rattle.streams.specs.Ended.{JobRead};

    ghost Value = { List JobRead };

    ghost view = { λ jobs. jobs.ended.jobs };
}

impl<'a, R: Files + Input> FileJobs<'a, R> {
    /// No job is ended yet.
    pub fn new(runtime: &'a R) -> FileJobs<'a, R>
        ensures { result ≡ [] }
    {
        FileJobs {
            runtime,
            ended: Ended::new(),
        }
    }

    /// Tells the history of files the jobs that were ended, each under its name.
    pub fn tell(self, used: &mut FilesUsed)
        ensures { used.new ≡ used.old ++ map read_of_job self.entry }
    {
        used.jobs(self.ended);
    }
}

/// What a job is read from.
#[derive(Drop)]
pub enum JobSource<'a, R: Files + Input> {
    File(FileSource<'a, R>),
    Standard(Latched<R::Reader>),
    /// Of a name that no path can have here.
    NoText(Latched<NoText>),
}

impl<R: Files + Input> JobSource<'_, R> {
    /// What its reads gave.
    fn into_given(self) -> Given
        ensures { result.pieces ≡ (state_of_job self.entry).given }
    {
        match self {
            JobSource::File(file) => file.into_given(),
            JobSource::Standard(input) => input.into_given(),
            JobSource::NoText(none) => none.into_given(),
        }
    }
}

/// Cannot be read, since its name is no text.
#[derive(Drop)]
pub struct NoText;

impl Read for NoText {
    fn read(&mut self, _buf: &mut [u8]) -> io::Result<usize> {
        Err(io::Error::new(io::ErrorKind::InvalidInput, "the name is not UTF-8 text"))
    }
}

impl<R: Files + Input> Source for JobSource<'_, R> {
    ghost use Rattle.named_inputs.specs.FileJobs.{state_of_job};

    ghost state = { λ job. state_of_job job };

    fn read(&mut self, buf: &mut [u8]) -> io::Result<usize> {
        match self {
            JobSource::File(file) => file.read(buf),
            JobSource::Standard(input) => input.read(buf),
            JobSource::NoText(none) => none.read(buf),
        }
    }

    fn has_failed(&self) -> bool {
        match self {
            JobSource::File(file) => file.has_failed(),
            JobSource::Standard(input) => input.has_failed(),
            JobSource::NoText(none) => none.has_failed(),
        }
    }

    fn error(&self) -> Option<io::Error> {
        match self {
            JobSource::File(file) => file.error(),
            JobSource::Standard(input) => input.error(),
            JobSource::NoText(none) => none.error(),
        }
    }
}

impl<'a, R: Files + Input> Jobs<'a> for FileJobs<'a, R> {
    type Job = JobSource<'a, R>;

    ghost use Rattle.named_inputs.specs.FileJobs.{is_job_at};
    ghost use Rattle.streams.specs.Files.{no_source};

    ghost start = { λ _ _. no_source };

    ghost is_named = { λ job name. is_job_at job name };

    ghost ended = { λ jobs. jobs };

    fn job(&self, name: &'a [u8]) -> JobSource<'a, R> {
        match str::from_utf8(name) {
            Ok("-") => JobSource::Standard(Latched::new(self.runtime.reader())),
            Ok(path) => JobSource::File(FileSource::new(self.runtime, path)),
            Err(_) => JobSource::NoText(Latched::new(NoText)),
        }
    }

    fn end(&mut self, name: &'a [u8], job: JobSource<'a, R>) {
        let has_failed = job.has_failed();
        let given = job.into_given();
        self.ended = self.ended.and(&JobEnd {
            name,
            given,
            has_failed,
        });
    }
}
