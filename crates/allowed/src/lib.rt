// Questions 15 and 16: is a sizing long enough, and is each index in its place's range?
#![tactic(auto)]

ghost use Rattle.std.specs.Prelude.{◌≡◌, ◌<◌, ◌≤◌, length};
ghost use Rattle.net.specs.Job.{places_by};
ghost use Rattle.net.specs.Net.{net_by};
ghost use Rattle.net.specs.Answers.{question16};
ghost use Rattle.refusal.specs.Numbers.{refusal_number};
ghost use Rattle.allowed.specs.Number.{index_in_range, sizing_number};

use job::{Job, Records};
use refusal::Refusal;

// Is the index of place p in its range?
fn index_in_range(records: &Records<'_>, sizing: &[u8], p: usize) -> bool
    requires { (p < places_by records.now.counts) × (p < length sizing.now) }
    ensures { result ≡ index_in_range (net_by records.now.counts records.now.bytes.now) sizing.now p }
{
    let k = sizing[p];
    let range = records.range(p);
    (range.lowest <= k) & (k <= range.highest)
}

// Is each index of a sizing in its place's range?
fn in_ranges(records: &Records<'_>, sizing: &[u8]) -> bool
    requires { places_by records.now.counts ≤ length sizing.now }
    ensures { result ≡ question16 (net_by records.now.counts records.now.bytes.now) sizing.now }
{
    (0..records.places()).all(|p| index_in_range(records, sizing, p))
}

// A sizing of counted records is refused by the first of the questions 15 and 16 that it fails.
pub fn check_counted(records: &Records<'_>, sizing: &[u8]) -> Result<(), Refusal>
    ensures { refusal_number result ≡ sizing_number (net_by records.now.counts records.now.bytes.now) sizing.now }
{
    if sizing.len() < records.places() {
        return Err(Refusal::SizingLength);
    }
    refusal::require(in_ranges(records, sizing), Refusal::Indices)
}

// The same of a job that passed its questions.
pub fn check_sizing(job: &Job<'_>, sizing: &[u8]) -> Result<(), Refusal>
    ensures { refusal_number result ≡ sizing_number (net_by job.now.counts job.now.bytes.now) sizing.now }
{
    check_counted(&job.records(), sizing)
}
