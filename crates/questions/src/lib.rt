// Questions 1 to 11 and 20 to 24, in their order, asked of a job of any length, in time linear in it.
#![tactic(auto)]

ghost use Rattle.std.specs.Prelude.{◌≡◌, ◌<◌, ◌≤◌, length, IfOk, OnOk};
ghost use Rattle.net.specs.Job.{records};
ghost use Rattle.net.specs.Net.{net_by};
ghost use Rattle.net.specs.Questions.{first_no, refusal};
ghost use Rattle.net.specs.Checked.{SinkWeights};
ghost use Rattle.refusal.specs.Numbers.{refusal_number};
ghost use Rattle.sinks.specs.Loaded.{LoadedTo};
ghost use Rattle.asked.specs.Parts.{Firsts};
ghost use Rattle.questions.specs.Check.{Begun, CheckOf, PassedOf, questions_from1, questions_from24, questions_from22};

use job::{AllRecords, Job, Records};
use refusal::{Refusal, require};

// A job that passed all its questions, and the count of its records.
#[derive(Clone, Copy)]
pub struct Passed<'a> {
    pub job: Job<'a>,
    pub records: usize,
}

// The first question that a job fails, and the count of its records.
#[derive(Clone, Copy)]
pub struct Failed {
    pub refusal: Refusal,
    pub records: usize,
}

impl From<Failed> for Refusal {
    ghost from_gives = { λ failed r. r ≡ failed.refusal };

    fn from(failed: Failed) -> Refusal {
        failed.refusal
    }
}

// Questions 1 and 2 of a job of n records, and where they are passed the records counted by kind.
#[tactic(auto, using(crate::proofs::Numbers::yes, crate::proofs::Numbers::no, crate::proofs::Numbers::last), unfolding(crate::specs::Check::questions_from1))]
fn count_records<'a>(bytes: &'a [u8], n: usize) -> Result<AllRecords<'a>, Refusal>
    requires { n ≡ records bytes.now }
    ensures number { refusal_number result ≡ first_no (questions_from1 bytes.now) }
    ensures begun { IfOk result (λ all. Begun bytes.now all) }
{
    require(asked::question1(bytes, n), Refusal::Length)?;
    let ends = kinds::find_ends(bytes, n);
    require(asked::question2(bytes, n, ends), Refusal::Kinds)?;
    let counts = kinds::count(bytes, n, ends);
    Ok(AllRecords {
        records: Records { bytes, counts },
        weights: n - ends.repeaters,
    })
}

// The questions that are asked before the segments are linked: 24 and 3 to 8.
#[tactic(auto, using(crate::proofs::Numbers::yes, crate::proofs::Numbers::no, crate::proofs::Numbers::last), unfolding(crate::specs::Check::questions_from24))]
fn questions_from_24(all: &AllRecords<'_>) -> Result<(), Refusal>
    ensures { refusal_number result ≡ first_no (questions_from24 all.now.records.counts all.now.records.bytes.now) }
{
    let records = &all.records;
    require(asked::question24(records), Refusal::Layers)?;
    require(asked::question3(records.counts), Refusal::Counts)?;
    require(asked::question4(all), Refusal::Numbers)?;
    require(asked::question5(all), Refusal::UnnamedBytes)?;
    require(asked::question6(records), Refusal::Values)?;
    require(asked::question7(records), Refusal::Tables)?;
    require(asked::question8(records), Refusal::StageRanges)
}

// The questions that are asked last, of linked segments: 22, 23, 20 and 21. `weights` has each segment's own weight byte before, and where all are
// passed the weight of each segment's sink afterwards: loading them asks question 21.
#[tactic(auto, using(crate::proofs::Numbers::yes, crate::proofs::Numbers::no, crate::proofs::Numbers::last), unfolding(crate::specs::Check::questions_from22))]
fn questions_from_22(
    all: &AllRecords<'_>,
    first: &[usize],
    weights: &mut [u8; 64],
) -> Result<(), Refusal>
    requires few { all.now.records.counts.segments ≤ 64 }
    requires firsts { Firsts (net_by all.now.records.counts all.now.records.bytes.now) first.now }
    requires loaded_to { LoadedTo all.now.records.counts all.now.records.bytes.now 0 weights.old }
    ensures number { refusal_number result ≡ first_no (questions_from22 all.now.records.counts all.now.records.bytes.now) }
    ensures weights { OnOk result (SinkWeights all.now.records.counts all.now.records.bytes.now weights.new) }
{
    let records = &all.records;
    require(asked::question22(records, first), Refusal::RepeaterSites)?;
    require(asked::question23(records), Refusal::RepeaterRanges)?;
    require(asked::question20(all), Refusal::WeightRecords)?;
    require(sinks::load(all, weights), Refusal::Fractions)
}

// All questions of a job of n records, in their order. Where all are passed, the segments are linked and `weights` has the weight of each segment's
// sink. Linking asks question 9, and one loop over the segments asks 10 and 11 and puts their weight bytes into the table.
fn questions_from_1<'a>(
    bytes: &'a [u8],
    n: usize,
    first: &mut [usize],
    next: &mut [usize],
    weights: &mut [u8; 64],
) -> Result<Job<'a>, Refusal>
    requires counted { n ≡ records bytes.now }
    requires in_bounds { (64 < length first.old) × (64 ≤ length next.old) }
    ensures number { refusal_number result ≡ refusal bytes.now }
    ensures passed { IfOk result (λ job. PassedOf bytes.now job first.new next.new weights.new) }
{
    let all = count_records(bytes, n)?;
    let records = all.records;
    questions_from_24(&all)?;
    require(links::link(&records, first, next), Refusal::Parents)?;
    segments::segments_fit(&records.segments(), records.counts, first, weights)?;
    questions_from_22(&all, first, weights)?;
    Ok(Job {
        bytes: records.bytes,
        counts: records.counts,
    })
}

// The first question that a job fails, or the job where it passes all, and then its segments are linked and `weights` has the weight of each segment's
// sink. The count of its records is told either way. The length is divided here and nowhere else.
pub fn check<'a>(
    bytes: &'a [u8],
    first: &mut [usize],
    next: &mut [usize],
    weights: &mut [u8; 64],
) -> Result<Passed<'a>, Failed>
    requires { (64 < length first.old) × (64 ≤ length next.old) }
    ensures { CheckOf bytes.now result first.new next.new weights.new }
{
    let records = bytes.len() / 16;
    match questions_from_1(bytes, records, first, next, weights) {
        Ok(job) => Ok(Passed { job, records }),
        Err(refusal) => Err(Failed { refusal, records }),
    }
}
