// The weights of the sinks, loaded once for a job into a table: what a sink's fraction counts, and each weight record put at its segment.
#![tactic(auto)]

ghost use Rattle.std.specs.Prelude.{◌≡◌, suc, ◌+◌, ◌^◌, ◌<◌, ◌≤◌, true, from_bits};
ghost use Rattle.std.specs.Float.{binary64};
ghost use Rattle.net.specs.Job.{byte, word, weight_at, weight_bits};
ghost use Rattle.net.specs.Questions.{question20, question21};
ghost use Rattle.net.specs.Checked.{WeightFits, SinkWeights};
ghost use Rattle.sinks.specs.Told.{CountOf, WeightOf, SinkOf};
ghost use Rattle.sinks.specs.Loaded.{accepted, LoadedTo};

use job::{AllRecords, Records};
use quantity::Capacitance;
use std::num::{f64_from_bits_with_nan, saturating_f64_to_u8};

// The weight that a weight record has: a fraction, a whole number, or none.
#[derive(Clone, Copy)]
pub enum Weight {
    Fraction(f64),
    Whole(u8),
    Absent,
}

// A sink's entry while a job is read: its fraction beside its capacitance.
#[derive(Clone, Copy)]
pub struct Sink {
    pub weight: f64,
    pub capacitance: Capacitance,
}

// What the sink's fraction counts, a whole number from 0 to 255, or none where it is refused. The product of a fraction below 1 is exact, so it is
// compared with its own whole part. What is negative has the whole part 0, what is above 255 has 255, and a NaN equals nothing; minus zero equals 0.
fn count(sink: Sink) -> Option<u8>
    ensures { CountOf sink.weight result }
{
    let product = sink.weight * 256.0;
    let whole = saturating_f64_to_u8(product);
    (product == whole as f64).then_some(whole)
}

// A byte of weight record w.
fn weight_byte(all: &AllRecords<'_>, w: usize, at: usize) -> usize
    requires { (w < all.now.weights) × (at < 16) }
    ensures { (result ≡ byte all.now.records.bytes.now (weight_at all.now.records.counts w + at)) × (result < 256) }
{
    all.weights().byte(w, at)
}

// A word of weight record w.
fn weight_word(all: &AllRecords<'_>, w: usize, at: usize) -> u64
    requires { (w < all.now.weights) × (at ≤ 12) }
    ensures { (result ≡ word all.now.records.bytes.now (weight_at all.now.records.counts w + at)) × (result < 2 ^ 32) }
{
    let run = all.weights();
    job::word_at(run.bytes, 16 * (run.start + w) + at)
}

// The fraction of weight record w.
fn fraction(all: &AllRecords<'_>, w: usize) -> f64
    requires { w < all.now.weights }
    ensures { result ≡ from_bits binary64 (weight_bits all.now.records.counts all.now.records.bytes.now w) }
{
    let low = weight_word(all, w, 8);
    let high = weight_word(all, w, 12);
    f64_from_bits_with_nan(low + 4294967296 * high)
}

// The weight that weight record w has.
fn weight_of(all: &AllRecords<'_>, w: usize) -> Weight
    requires readable { w < all.now.weights }
    requires fits { WeightFits all.now.records.counts all.now.records.bytes.now w }
    ensures { WeightOf all.now.records.counts all.now.records.bytes.now w result }
{
    match weight_byte(all, w, 2) {
        1 => Weight::Whole(weight_word(all, w, 4) as u8),
        2 => Weight::Fraction(fraction(all, w)),
        _ => Weight::Absent,
    }
}

// The entry of segment i's sink, whose fraction is `weight`.
fn entry(records: &Records<'_>, i: usize, weight: f64) -> Sink
    requires { i < records.now.counts.segments }
    ensures { SinkOf records.now.counts records.now.bytes.now i weight result }
{
    Sink {
        weight,
        capacitance: records.sink(i),
    }
}

// Puts what weight record w counts, where it has a weight, at its segment. Is its fraction, where it has one, accepted?
fn load_one(all: &AllRecords<'_>, w: usize, weights: &mut [u8; 64]) -> bool
    requires few { all.now.records.counts.segments ≤ 64 }
    requires readable { w < all.now.weights }
    requires fits { WeightFits all.now.records.counts all.now.records.bytes.now w }
    requires loaded_to { LoadedTo all.now.records.counts all.now.records.bytes.now w weights.old }
    ensures asked { result ≡ accepted all.now.records.counts all.now.records.bytes.now w }
    ensures loaded { result ≡ true → LoadedTo all.now.records.counts all.now.records.bytes.now (suc w) weights.new }
{
    let i = weight_byte(all, w, 1);
    match weight_of(all, w) {
        Weight::Fraction(x) => match count(entry(&all.records, i, x)) {
            Some(k) => {
                weights[i] = k;
                true
            }
            None => false,
        },
        Weight::Whole(k) => {
            weights[i] = k;
            true
        }
        Weight::Absent => true,
    }
}

// Question 21: is 256 times each fraction a whole number from 0 to 255? `weights` has each segment's own byte before, and where the question passes the
// weight of each segment's sink afterwards. A fraction that fails ends the loop.
pub fn load(all: &AllRecords<'_>, weights: &mut [u8; 64]) -> bool
    requires few { all.now.records.counts.segments ≤ 64 }
    requires fit { question20 all.now.records.counts all.now.records.bytes.now ≡ true }
    requires loaded_to { LoadedTo all.now.records.counts all.now.records.bytes.now 0 weights.old }
    ensures asked { result ≡ question21 all.now.records.counts all.now.records.bytes.now }
    ensures loaded { result ≡ true → SinkWeights all.now.records.counts all.now.records.bytes.now weights.new }
{
    for w in 0..all.weights {
        if !load_one(all, w, weights) {
            return false;
        }
    }
    true
}
