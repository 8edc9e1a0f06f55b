//! Checks of a job.
ghost use Rattle.std.specs.Prelude.{◌≡◌, None, Ok, IfErr, IfOk};
ghost use Rattle.foreign_calls.specs.Answers.{IsStop, refusal_by};
ghost use Rattle.job_reports.specs.Groups.{reported};
ghost use Rattle.job_reports.specs.JobSentences.{job_sentence};
ghost use Rattle.web_module.specs.Judgements.{IsHandedWith, IsJudgedOf, IsSaidOf, IsUnjudgedOf};
ghost use Rattle.web_module.specs.Judgements.{judgement_row, row_left};
ghost use Rattle.web_module.specs.Printers.{texts_of};

use crate::printers::Printers;
use crate::rows::{JudgementRow, judgement_row};
use foreign_calls::{Refusal, Why, judge, put, sentence};
use job_reports::PrinterGroup;
use judgement::Judgement;
use std::alloc::Allocator;
use std::marker::Model;

/// A judgement in numbers, and its sentence.
#[derive(Drop)]
pub(crate) struct Judged<A: Allocator> {
    row: JudgementRow,
    text: Vec<u8, A>,
}

impl<A: Allocator> Model for Judged<A> {
    ghost use Rattle.web_module.specs.Judgements.{Judged};

    ghost Value = { Judged };

    ghost view = { λ judged. record { row = judged.row; text = judged.text.items } };
}

/// Judges a job of this name for the printers of texts of these lengths, together or as one of
/// them by itself.
pub(crate) fn judge_job<A: Allocator + Copy>(
    alloc: A,
    texts: &[u8],
    lengths: &[usize],
    is_each: bool,
    name: &[u8],
    job: &[u8],
) -> Result<Judged<A>, Why>
    ensures judged { IfOk result
        (IsJudgedOf (texts_of lengths.now texts.now) is_each name.now job.now) }
    ensures why { IfErr result (IsUnjudgedOf (texts_of lengths.now texts.now)) }
{
    match Printers::read(alloc, texts, lengths) {
        Ok(printers) => {
            let asked = printers.group(is_each);
            judged_for(alloc, &asked, name, job)
        }
        Err(why) => Err(why),
    }
}

/// The same for printers that are read.
fn judged_for<A: Allocator + Copy>(
    alloc: A,
    group: &PrinterGroup<'_, A>,
    name: &[u8],
    job: &[u8],
) -> Result<Judged<A>, Why>
    ensures judged { IfOk result (IsSaidOf group.now name.now job.now) }
    ensures stops { IfErr result IsStop }
{
    match judge(alloc, group.profiles(), job) {
        Ok(judgement) => said_of(alloc, group, name, judgement),
        Err(error) => Err(Why::Stopped(error)),
    }
}

/// A judgement in numbers, with its sentence.
fn said_of<A: Allocator + Copy>(
    alloc: A,
    group: &PrinterGroup<'_, A>,
    name: &[u8],
    judgement: Judgement,
) -> Result<Judged<A>, Why>
    ensures row { IfOk result (λ judged. judged.row ≡ judgement_row judgement) }
    ensures text { IfOk result (λ judged. judged.text
        ≡ job_sentence (reported group.now name.now (Ok judgement) None)) }
    ensures stops { IfErr result IsStop }
{
    match sentence(alloc, group, name, judgement) {
        Ok(text) => Ok(Judged {
            row: judgement_row(judgement),
            text,
        }),
        Err(error) => Err(Why::from(error)),
    }
}

/// Puts the sentence into a room, where there is one, and answers the number of the call.
pub(crate) fn tell_judged<A: Allocator>(
    judged: &Result<Judged<A>, Why>,
    row: &mut JudgementRow,
    refusal: &mut Refusal,
    room: &mut [u8],
    needed: &mut usize,
) -> u32
    ensures handed { IsHandedWith judged.now result room.old room.new needed.old needed.new }
    ensures row { row.new ≡ row_left row.old judged.now }
    ensures refusal { refusal.new ≡ refusal_by refusal.old judged.now }
{
    match judged {
        Ok(judged) => {
            *row = judged.row;
            put(judged.text.as_slice(), room, needed)
        }
        Err(why) => {
            why.tell(refusal);
            why.number()
        }
    }
}
