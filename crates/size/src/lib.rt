// size: the least scaled delay of a job, its bounds, and the least-delay sizings' envelopes, written as a reply.
#![tactic(auto)]

ghost use Rattle.std.specs.Prelude.{◌≡◌, suc, ◌*◌, ◌≤◌, length};
ghost use Rattle.net.specs.Job.{places_by};
ghost use Rattle.net.specs.Net.{net_by};
ghost use Rattle.net.specs.Checked.{SinkWeights};
ghost use Rattle.net.specs.Questions.{refusal};
ghost use Rattle.net.specs.Answers.{size_number, size_buffer};
ghost use Rattle.net.specs.Promises.{Promises};
ghost use Rattle.positions.specs.Arranged.{PositionsOf};
ghost use Rattle.finish.specs.Parts.{BoundedBy, buffer_by};
ghost use Rattle.size.specs.Numbers.{room_number, reply_number, reply_counts, unwritten_number, answer_number, AnswerCounts};
ghost use Rattle.size.specs.declared.Unwritten.TheVariants.{Refused};

use job::Job;
use lattice::Side;
use links::Links;
use net::Counts;
use place::Places;
use positions::{Arranged, Bounds, Tables};
use questions::Failed;
use refusal::Refusal;

// What size has written, with the counts of the job's records: the finished reply, or, where the search is too large, the reply that has the bounds
// alone.
#[derive(Clone, Copy)]
pub enum Reply {
    Finished(Counts),
    BoundsOnly(Counts),
}

impl Reply {
    // The number that goes with the reply.
    pub fn number(self) -> usize
        ensures { result ≡ reply_number self }
    {
        match self {
            Reply::Finished(_) => 0,
            Reply::BoundsOnly(_) => 14,
        }
    }
}

// Why size writes nothing: a question of the job fails; or the buffer is too short for the reply, and the counts tell how long that is.
#[derive(Clone, Copy)]
pub enum Unwritten {
    Refused(Refusal),
    TooShort(Counts),
}

impl Unwritten {
    // The number of the question that fails.
    pub fn number(self) -> usize
        ensures { result ≡ unwritten_number self }
    {
        match self {
            Unwritten::Refused(refusal) => refusal.number(),
            Unwritten::TooShort(_) => 12,
        }
    }
}

impl From<Failed> for Unwritten {
    ghost from_gives = { λ f r. r ≡ Refused f.refusal };

    fn from(failed: Failed) -> Unwritten {
        Unwritten::Refused(failed.refusal)
    }
}

// Question 14, and the reply.
fn answer(
    places: &Places<'_, '_>,
    position: &[usize; 76],
    bounds: Bounds<'_>,
    reply: &mut [u8],
) -> Reply
    requires positions_of { PositionsOf places.now.arranged.job.counts places.now.arranged.job.bytes.now position.now }
    requires bounded_by { BoundedBy places.now.arranged.job.counts places.now.arranged.job.bytes.now bounds.lower.now bounds.upper.now }
    requires counts_in_bounds { 8 * suc (places_by places.now.arranged.job.counts) ≤ length reply.old }
    ensures number { reply_number result ≡ room_number (net_by places.now.arranged.job.counts places.now.arranged.job.bytes.now) }
    ensures counts { reply_counts result ≡ places.now.arranged.job.counts }
    ensures buffer { reply.new ≡ buffer_by places.now.arranged.job.counts places.now.arranged.job.bytes.now (reply_number result) reply.old }
{
    let job = &places.arranged.job;
    let counts = job.counts;
    if !bounds::room_fits(bounds, job.places()) {
        reply::bounds_only(reply, position, bounds);
        return Reply::BoundsOnly(counts);
    }
    finish::finish(places, position, bounds, reply);
    Reply::Finished(counts)
}

// Both bounds, in the driving order of the places, then the question that needs them, and the reply.
fn bound_and_answer(job: Job<'_>, sinks: &[u8; 64], reply: &mut [u8]) -> Reply
    requires sink_weights { SinkWeights job.counts job.bytes.now sinks.now }
    requires counts_in_bounds { 8 * suc (places_by job.counts) ≤ length reply.old }
    ensures number { reply_number result ≡ room_number (net_by job.entry.counts job.entry.bytes.now) }
    ensures counts { reply_counts result ≡ job.entry.counts }
    ensures buffer { reply.new ≡ buffer_by job.entry.counts job.entry.bytes.now (reply_number result) reply.old }
{
    let n = job.places();
    let mut tables = Tables {
        order: [0; 76],
        position: [0; 76],
    };
    let mut hangs = [0; 76];
    positions::arrange(&job, &mut tables, &mut hangs);
    let arranged = Arranged {
        job,
        order: &tables.order,
        hangs: &hangs,
    };
    let mut weights = [0; 76];
    weights::weigh(&arranged, sinks, &mut weights);
    let places = Places {
        arranged,
        weights: &weights,
    };
    let mut lower = [0u8; 76];
    let mut upper = [0u8; 76];
    let lower = &mut lower[..n];
    let upper = &mut upper[..n];
    bounds::bound(&places, lower, Side::Below);
    bounds::bound(&places, upper, Side::Above);
    answer(&places, &tables.position, Bounds { lower, upper }, reply)
}

// Writes the reply of a job into the buffer, finished or with the bounds alone; or answers the first question that fails, and leaves the buffer as it
// was.
pub fn size(job: &[u8], reply: &mut [u8]) -> Result<Reply, Unwritten>
    ensures number { answer_number result ≡ size_number job.now (length reply.old) }
    ensures buffer { reply.new ≡ size_buffer job.now reply.old }
    ensures promises { Promises job.now reply.old (answer_number result) reply.new }
    ensures counts { AnswerCounts job.now result }
{
    let mut links = Links::new();
    let mut weights = [0u8; 64];
    let job = questions::check(job, &mut links.first, &mut links.next, &mut weights)?.job;
    let places = job.places();
    if reply.len() < 8 * (1 + places) {
        return Err(Unwritten::TooShort(job.counts));
    }
    Ok(bound_and_answer(job, &weights, reply))
}
