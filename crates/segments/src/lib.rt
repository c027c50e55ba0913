// Tests of each segment and of the segment of each repeater. `first` has the first segment at each node, and past the last segment where there is none.
#![tactic(auto)]

ghost use Rattle.std.specs.Prelude.{◌≡◌, true, ◌&&◌, ◌-◌, ◌<◌, ◌≤◌, length};
ghost use Rattle.lattice.specs.Lists.{every};
ghost use Rattle.refusal.specs.Numbers.{refusal_number};
ghost use Rattle.segments.specs.Tests.{fields_pass, ends_pass, all_fit, all_end, segments_number, OwnWeights, branched, site_branched, sites_rise};

use job::Run;
use net::Counts;
use refusal::Refusal;

// Are the fields of each segment in range, capacitance and weight 0 where there is no sink, and lowest ≤ highest < count of widths of its layer?
// And has each segment a sink, or branches? Where it has none, the first segment at its far end is the one past the last. Each segment is read once
// for both; fields that do not fit end the loop, since question 10 is asked first. The weight is read here, so its byte is put into the table of the
// sinks' weights here too.
pub fn segments_fit(
    run: &Run<'_>,
    counts: Counts,
    first: &[usize],
    weights: &mut [u8; 64],
) -> Result<(), Refusal>
    requires layers { counts.layer0 ≤ counts.widths }
    requires in_bounds { (run.now.count < length first.now) × (run.now.count ≤ 64) }
    ensures fields { fields_pass result ≡ all_fit run.now.bytes.now counts run.now.start run.now.count }
    ensures ends { fields_pass result ≡ true → ends_pass result ≡ all_end run.now.bytes.now first.now run.now.start run.now.count }
    ensures number { refusal_number result ≡ segments_number run.now.bytes.now counts first.now run.now.start run.now.count }
    ensures weights { fields_pass result ≡ true → OwnWeights run.now.bytes.now run.now.start run.now.count weights.new }
{
    let mut ends = true;
    for k in 0..run.count {
        let sink = run.byte(k, 3);
        let length = run.word(k, 4);
        let capacitance = run.word(k, 8);
        let weight = run.byte(k, 12);
        let lowest = run.byte(k, 13);
        let highest = run.byte(k, 14);
        let widths = job::widths_of(counts, run.byte(k, 15));
        let within = (sink <= 1) & ((1 <= length) & (length <= 1000) & (capacitance <= 100000));
        let none = (sink != 0) | ((capacitance == 0) & (weight == 0));
        let range = (lowest <= highest) & (highest < widths);
        let passed = within & (none & range);
        if !passed {
            return Err(Refusal::SegmentFields);
        }
        weights[k] = weight as u8;
        let ended = (sink != 0) | (first[k + 1] < run.count);
        ends = ended & ends;
    }
    refusal::require(ends, Refusal::OpenEnds)
}

// Is segment i one of n, and has it branches?
fn has_branches(first: &[usize], n: usize, i: usize) -> bool
    requires { n < length first.now }
    ensures { result ≡ branched first.now n i }
{
    i < n && first[i + 1] < n
}

// Is the segment of each repeater one of n, and has it branches?
fn sites_branched(repeaters: &Run<'_>, first: &[usize], n: usize) -> bool
    requires { n < length first.now }
    ensures { result ≡ every repeaters.now.count (site_branched repeaters.now.bytes.now first.now repeaters.now.start n) }
{
    (0..repeaters.count).all(|k| has_branches(first, n, repeaters.byte(k, 2)))
}

// The same, and do the segment numbers strictly rise?
pub fn repeaters_sited(repeaters: &Run<'_>, first: &[usize], n: usize) -> bool
    requires { n < length first.now }
    ensures { result ≡ every repeaters.now.count (site_branched repeaters.now.bytes.now first.now repeaters.now.start n) && every (repeaters.now.count - 1) (sites_rise repeaters.now.bytes.now repeaters.now.start) }
{
    sites_branched(repeaters, first, n) & runs::bytes_rise(repeaters, 2)
}
