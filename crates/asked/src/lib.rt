// Each of the questions 1 to 8, 20 and 22 to 24 by itself. Within a question all tests are asked, by `&`: a proof then has one way through it.
#![tactic(auto)]

ghost use Rattle.std.specs.Prelude.{◌≡◌, ◌≤◌};
ghost use Rattle.net.specs.Job.{records};
ghost use Rattle.net.specs.Net.{net_by};
ghost use Rattle.net.specs.Questions.{question1, question2, question24, question3, question4, question5, question6, question7, question8, question22, question23, question20};
ghost use Rattle.kinds.specs.Kinds.{EndsOf};
ghost use Rattle.asked.specs.Parts.{top_layer, repeaters_zero, Firsts};

use job::{AllRecords, Records};
use kinds::RunEnds;
use net::Counts;
use runs::{Byte, Word};

// Question 1, of n whole records: is the length above 0 and a multiple of 16?
pub fn question1(bytes: &[u8], n: usize) -> bool
    requires { n ≡ records bytes.now }
    ensures { result ≡ question1 bytes.now }
{
    (0 < bytes.len()) & (16 * n == bytes.len())
}

// Question 2, of n records: is every kind 1 to 6, never falling? It is where the runs of the kinds, one behind another, cover all.
pub fn question2(bytes: &[u8], n: usize, ends: RunEnds) -> bool
    requires n_value { n ≡ records bytes.now }
    requires ends_of { EndsOf bytes.now n ends }
    ensures { result ≡ question2 bytes.now }
{
    ends.weights == n
}

// The highest layer that has widths.
fn top_layer(counts: Counts) -> usize
    ensures { result ≡ top_layer counts }
{
    if counts.layer0 < counts.widths { 1 } else { 0 }
}

// Question 24: is every layer byte 0 or 1, does the layer never fall from one width to the next, and has layer 1 a width where a segment names it?
// A segment's layer is then at most the highest that has widths.
pub fn question24(records: &Records<'_>) -> bool
    ensures { result ≡ question24 records.now.counts records.now.bytes.now }
{
    let top = top_layer(records.counts);
    let widths = runs::bytes_in_order(&records.widths(), 2, 0, 1);
    let segments = runs::within(&records.segments(), Byte(15), 0, top);
    widths & segments
}

// Question 3: is each kind's count in its range, that of widths in each layer?
pub fn question3(counts: Counts) -> bool
    requires { counts.layer0 ≤ counts.widths }
    ensures { result ≡ question3 counts }
{
    let first = (1 <= counts.layer0) & (counts.layer0 <= 8);
    let second = counts.widths - counts.layer0 <= 8;
    let sizes = (1 <= counts.sizes) & (counts.sizes <= 16);
    let stages = (1 <= counts.stages) & (counts.stages <= 4);
    let segments = (1 <= counts.segments) & (counts.segments <= 64);
    let repeaters = counts.repeaters <= 8;
    first & (second & (sizes & (stages & (segments & repeaters))))
}

// Question 4: do numbers count from 0 in each of the kinds 1 to 5, those of widths in each layer, and does byte 1 of weight records strictly rise?
// The segments come last, so that the compiler keeps no answer while it goes through the longest run.
pub fn question4(all: &AllRecords<'_>) -> bool
    ensures { result ≡ question4 all.now.records.counts all.now.records.bytes.now }
{
    let first = runs::numbers_in_order(&all.records.layer0());
    let second = runs::numbers_in_order(&all.records.layer1());
    let sizes = runs::numbers_in_order(&all.records.sizes());
    let stages = runs::numbers_in_order(&all.records.stages());
    let repeaters = runs::numbers_in_order(&all.records.repeaters());
    let weights = weight_records::segments_rise(&all.weights());
    let segments = runs::numbers_in_order(&all.records.segments());
    (first & second) & (sizes & (stages & (segments & (repeaters & weights))))
}

// Are the unnamed bytes of the repeaters zero: the last three of the second word, and the two words behind it?
fn repeaters_zero(records: &Records<'_>) -> bool
    ensures { result ≡ repeaters_zero records.now.counts records.now.bytes.now }
{
    let repeaters = records.repeaters();
    let second = runs::bytes_zero(&repeaters, 5, 3);
    let third = runs::within(&repeaters, Word(8), 0, 0);
    let fourth = runs::within(&repeaters, Word(12), 0, 0);
    second & (third & fourth)
}

// Question 5: are all unnamed bytes zero?
pub fn question5(all: &AllRecords<'_>) -> bool
    ensures { result ≡ question5 all.now.records.counts all.now.records.bytes.now }
{
    let widths = all.records.widths();
    let before = runs::bytes_zero(&widths, 3, 1);
    let behind = runs::within(&widths, Word(12), 0, 0);
    let sizes = runs::bytes_zero(&all.records.sizes(), 2, 2);
    let run = all.records.stages();
    let second = runs::within(&run, Word(4), 0, 0);
    let third = runs::within(&run, Word(8), 0, 0);
    let fourth = runs::within(&run, Word(12), 0, 0);
    let stages = second & (third & fourth);
    let repeaters = repeaters_zero(&all.records);
    let weights = weight_records::unnamed_zero(&all.weights());
    (before & behind) & (sizes & (stages & (repeaters & weights)))
}

// Question 6: are the values of kinds 1 and 2 in range?
pub fn question6(records: &Records<'_>) -> bool
    ensures { result ≡ question6 records.now.counts records.now.bytes.now }
{
    let widths = records.widths();
    let resistances = runs::within(&widths, Word(4), 1, 100);
    let capacitances = runs::within(&widths, Word(8), 1, 100);
    let sizes = records.sizes();
    let drivers = runs::within(&sizes, Word(4), 1, 100000);
    let gates = runs::within(&sizes, Word(8), 1, 100000);
    let outputs = runs::within(&sizes, Word(12), 0, 100000);
    (resistances & capacitances) & (drivers & (gates & outputs))
}

// Question 7: in each table, that of each layer and that of the driver sizes, does resistance strictly fall, and do width capacitance and gate
// capacitance strictly rise?
pub fn question7(records: &Records<'_>) -> bool
    ensures { result ≡ question7 records.now.counts records.now.bytes.now }
{
    let first = runs::table_in_order(&records.layer0());
    let second = runs::table_in_order(&records.layer1());
    let sizes = runs::table_in_order(&records.sizes());
    (first & second) & sizes
}

// Question 8: is every stage's lowest ≤ highest < count of sizes, with both equal for stage 0?
pub fn question8(records: &Records<'_>) -> bool
    requires { 1 ≤ records.now.counts.stages }
    ensures { result ≡ question8 records.now.counts records.now.bytes.now }
{
    let stages = records.stages();
    let ranges = runs::ranges_within(&stages, 2, records.counts.sizes);
    let lowest = stages.byte(0, 2);
    let highest = stages.byte(0, 3);
    ranges & (lowest == highest)
}

// Question 22: is the segment of every repeater there, has it branches, and do the segment numbers strictly rise?
pub fn question22(records: &Records<'_>, first: &[usize]) -> bool
    requires { Firsts (net_by records.now.counts records.now.bytes.now) first.now }
    ensures { result ≡ question22 records.now.counts records.now.bytes.now }
{
    segments::repeaters_sited(&records.repeaters(), first, records.counts.segments)
}

// Question 23: is every repeater's lowest ≤ highest < count of sizes?
pub fn question23(records: &Records<'_>) -> bool
    ensures { result ≡ question23 records.now.counts records.now.bytes.now }
{
    runs::ranges_within(&records.repeaters(), 3, records.counts.sizes)
}

// Question 20: is the segment of every weight record there, has it a sink, is the form at most 2, and a whole number at most 255?
pub fn question20(all: &AllRecords<'_>) -> bool
    ensures { result ≡ question20 all.now.records.counts all.now.records.bytes.now }
{
    weight_records::weights_fit(&all.records.segments(), &all.weights())
}
