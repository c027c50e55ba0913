// Where the run of each kind of record ends, and the counts of records by kind and of the widths by layer.
#![tactic(auto)]

ghost use Rattle.std.specs.Prelude.{◌≡◌, ◌*◌, ◌≤◌, length};
ghost use Rattle.job.specs.Runs.{HasRun};
ghost use Rattle.kinds.specs.Kinds.{Kinds, RunEnd, EndsOf, number_of};
ghost use Rattle.kinds.specs.Counted.{layer0_in, counts_to};

use net::Counts;

// What a record describes. Its first byte is the number of its kind.
#[derive(Clone, Copy)]
pub enum Kind {
    Width = 1,
    Size = 2,
    Stage = 3,
    Segment = 4,
    Repeater = 5,
    Weight = 6,
}

// Where the run of each kind of record ends.
#[derive(Clone, Copy)]
pub struct RunEnds {
    pub widths: usize,
    pub sizes: usize,
    pub stages: usize,
    pub segments: usize,
    pub repeaters: usize,
    pub weights: usize,
}

// The first of n records, from `from` on, that is not of a kind, or n: where the run of that kind ends.
fn run_end(bytes: &[u8], n: usize, from: usize, kind: Kind) -> usize
    requires { (16 * n ≤ length bytes.now) × (from ≤ n) }
    ensures { RunEnd bytes.now n (number_of kind) from result }
{
    for k in from..n {
        if bytes[16 * k] != kind as u8 {
            return k;
        }
    }
    n
}

// Where in n records the run of each kind ends, each from the end of the one before on. A record is read again only where a run ends.
pub fn find_ends(bytes: &[u8], n: usize) -> RunEnds
    requires { 16 * n ≤ length bytes.now }
    ensures { EndsOf bytes.now n result }
{
    let widths = run_end(bytes, n, 0, Kind::Width);
    let sizes = run_end(bytes, n, widths, Kind::Size);
    let stages = run_end(bytes, n, sizes, Kind::Stage);
    let segments = run_end(bytes, n, stages, Kind::Segment);
    let repeaters = run_end(bytes, n, segments, Kind::Repeater);
    let weights = run_end(bytes, n, repeaters, Kind::Weight);
    RunEnds {
        widths,
        sizes,
        stages,
        segments,
        repeaters,
        weights,
    }
}

// How many of the first n records, which are widths, are of layer 0.
#[tactic(auto, unfolding(net::specs::Job::count_if))]
fn count_layer0(bytes: &[u8], n: usize) -> usize
    requires { HasRun bytes.now 0 n }
    ensures { result ≡ layer0_in bytes.now n }
{
    let mut count = 0;
    for k in 0..n {
        if bytes[16 * k + 2] == 0 {
            count += 1;
        }
    }
    count
}

// How many of the first n records are of each of the kinds 1 to 5, and of the widths how many are of layer 0, where their kinds are 1 to 6 and never
// fall: each kind is one run of records.
pub fn count(bytes: &[u8], n: usize, ends: RunEnds) -> Counts
    requires n_in_bounds { 16 * n ≤ length bytes.now }
    requires kinds { Kinds bytes.now n }
    requires ends_of { EndsOf bytes.now n ends }
    ensures { result ≡ counts_to bytes.now n }
{
    Counts {
        widths: ends.widths,
        layer0: count_layer0(bytes, ends.widths),
        sizes: ends.sizes - ends.widths,
        stages: ends.stages - ends.sizes,
        segments: ends.segments - ends.stages,
        repeaters: ends.repeaters - ends.segments,
    }
}
