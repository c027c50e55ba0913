// Tests of each weight record.
#![tactic(auto)]

ghost use Rattle.std.specs.Prelude.{◌≡◌, ◌-◌};
ghost use Rattle.lattice.specs.Lists.{every};
ghost use Rattle.weight_records.specs.Tests.{segments_rise, unnamed_zero, sink_there, weight_fits};

use job::Run;

// Does the number of the segment strictly rise from each record to the next?
pub fn segments_rise(weights: &Run<'_>) -> bool
    ensures { result ≡ every (weights.now.count - 1) (segments_rise weights.now.bytes.now weights.now.start) }
{
    runs::bytes_rise(weights, 1)
}

// Are the unnamed bytes of each record zero? Bytes 4 to 7 are named in form 1 alone, bytes 8 to 15 in form 2 alone.
pub fn unnamed_zero(weights: &Run<'_>) -> bool
    ensures { result ≡ every weights.now.count (unnamed_zero weights.now.bytes.now weights.now.start) }
{
    (0..weights.count).all(|k| {
        let form = weights.byte(k, 2);
        let third = weights.byte(k, 3);
        let whole = weights.word(k, 4);
        let low = weights.word(k, 8);
        let high = weights.word(k, 12);
        let number = (form == 1) | (whole == 0);
        let fraction = (form == 2) | ((low == 0) & (high == 0));
        (third == 0) & (number & fraction)
    })
}

// Is segment i there, and has it a sink?
fn has_sink(segments: &Run<'_>, i: usize) -> bool
    ensures { result ≡ sink_there segments.now.bytes.now segments.now.start segments.now.count i }
{
    i < segments.count && segments.byte(i, 3) != 0
}

// Is the segment of each weight record one of the segments, has it a sink, is the form at most 2, and a whole number at most 255?
pub fn weights_fit(segments: &Run<'_>, weights: &Run<'_>) -> bool
    ensures { result ≡ every weights.now.count (weight_fits segments.now.bytes.now segments.now.start segments.now.count weights.now.bytes.now weights.now.start) }
{
    (0..weights.count).all(|k| {
        let segment = weights.byte(k, 1);
        let form = weights.byte(k, 2);
        let whole = weights.word(k, 4);
        let number = (form != 1) | (whole <= 255);
        has_sink(segments, segment) & ((form <= 2) & number)
    })
}
