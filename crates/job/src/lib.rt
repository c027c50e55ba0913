// A job read by its records: one run of them, all of them once they are counted, and a job that passed its questions.
#![tactic(auto)]

ghost use Rattle.std.specs.Prelude.{◌≡◌, ◌+◌, ◌*◌, ◌^◌, ◌<◌, ◌≤◌, length};
ghost use Rattle.net.specs.Job.{byte, word, width_at, widths_of, first_row, size_at, place_at, segment_layer, places_by};
ghost use Rattle.net.specs.Net.{net_by};
ghost use Rattle.net.specs.Checked.{Checked};
ghost use Rattle.job.specs.WireAt.{WireAt};
ghost use Rattle.job.specs.Ranges.{RangeOf, driver_at};
ghost use Rattle.job.specs.Tables.{TableOf};
ghost use Rattle.job.specs.RecordsOf.{RecordsOf};

mod counted;
mod fields;
mod runs;

pub use counted::{AllRecords, Records};
use net::Counts;
use quantity::{Capacitance, Resistance};
pub use runs::Run;

// A segment's wire at one of its widths.
#[derive(Clone, Copy)]
pub struct Wire {
    pub resistance: Resistance,
    pub capacitance: Capacitance,
}

// The lowest and the highest index that a place may have.
#[derive(Clone, Copy)]
pub struct Range {
    pub lowest: u8,
    pub highest: u8,
}

// What a place's wire is read by, whatever its width: where among the widths the table of its layer starts, and its length. Of a driver it says
// nothing.
#[derive(Clone, Copy)]
pub struct Table {
    pub rows: usize,
    pub length: u64,
}

// Four bytes, the lowest first.
pub fn word_at(b: &[u8], at: usize) -> u64
    requires { at + 4 ≤ length b.now }
    ensures { (result ≡ word b.now at) × (result < 2 ^ 32) }
{
    u64::from(u32::from_le_bytes([b[at], b[at + 1], b[at + 2], b[at + 3]]))
}

// How many widths a layer has.
pub fn widths_of(counts: Counts, layer: usize) -> usize
    requires { counts.layer0 ≤ counts.widths }
    ensures { result ≡ widths_of counts layer }
{
    if layer == 0 {
        return counts.layer0;
    }
    counts.widths - counts.layer0
}

// Is place p a driver, and not a wire? A stage's number less the count of stages wraps round to one above all, so one comparison tells a stage and a
// repeater from a segment.
pub fn is_driver(counts: Counts, p: usize) -> bool
    requires { (counts.stages ≤ 4) × (counts.segments ≤ 64) }
    ensures { result ≡ driver_at counts p }
{
    counts.segments <= p.wrapping_sub(counts.stages)
}

// A job that passed its questions: its bytes, and how many records it has of each kind.
#[derive(Clone, Copy)]
pub struct Job<'a> {
    pub bytes: &'a [u8],
    pub counts: Counts,
    ghost checked: { Checked counts bytes.now },
}

impl<'a> Job<'a> {
    // Its records, of which less is known.
    pub fn records(&self) -> Records<'a>
        ensures { RecordsOf self.now.counts self.now.bytes.now result }
    {
        Records {
            bytes: self.bytes,
            counts: self.counts,
        }
    }

    // How many places there are.
    pub fn places(&self) -> usize
        ensures { (result ≡ places_by self.now.counts) × (result ≤ 76) }
    {
        self.counts.stages + self.counts.segments + self.counts.repeaters
    }

    // A byte of place p's record.
    pub fn place_byte(&self, p: usize, at: usize) -> u8
        requires { (p < places_by self.now.counts) × (at < 16) }
        ensures { result ≡ byte self.now.bytes.now (place_at self.now.counts p + at) }
    {
        self.records().place_byte(p, at)
    }

    // A word of place p's record.
    pub fn place_word(&self, p: usize, at: usize) -> u64
        requires { (p < places_by self.now.counts) × (at ≤ 12) }
        ensures { (result ≡ word self.now.bytes.now (place_at self.now.counts p + at)) × (result < 2 ^ 32) }
    {
        self.records().place_word(p, at)
    }

    // A word of width k's record.
    pub fn row_word(&self, k: usize, at: usize) -> u64
        requires { (k < self.now.counts.widths) × (at ≤ 12) }
        ensures { (result ≡ word self.now.bytes.now (width_at k + at)) × (result < 2 ^ 32) }
    {
        self.records().row_word(k, at)
    }

    // A word of driver size k's record.
    pub fn size_word(&self, k: usize, at: usize) -> u64
        requires { (k < self.now.counts.sizes) × (at ≤ 12) }
        ensures { (result ≡ word self.now.bytes.now (size_at self.now.counts k + at)) × (result < 2 ^ 32) }
    {
        self.records().size_word(k, at)
    }

    // The node that segment i hangs at.
    pub fn parent(&self, i: usize) -> usize
        requires { i < self.now.counts.segments }
        ensures { (result ≡ (net_by self.now.counts self.now.bytes.now).parent i) × (result ≤ i) }
    {
        self.records().parent(i)
    }

    // The capacitance of segment i's sink.
    pub fn sink(&self, i: usize) -> Capacitance
        requires { i < self.now.counts.segments }
        ensures { result.0 ≡ (net_by self.now.counts self.now.bytes.now).sink i }
    {
        self.records().sink(i)
    }

    // The segment at whose far end repeater r sits.
    pub fn site(&self, r: usize) -> usize
        requires { r < self.now.counts.repeaters }
        ensures { (result ≡ (net_by self.now.counts self.now.bytes.now).site r) × (result < self.now.counts.segments) }
    {
        self.records().site(r)
    }

    // The resistance of a driver of the size k.
    pub fn driver_resistance(&self, k: usize) -> Resistance
        requires { k < self.now.counts.sizes }
        ensures { result.0 ≡ (net_by self.now.counts self.now.bytes.now).driver_resistance k }
    {
        self.records().driver_resistance(k)
    }

    // The gate capacitance of a driver of the size k.
    pub fn gate(&self, k: usize) -> Capacitance
        requires { k < self.now.counts.sizes }
        ensures { result.0 ≡ (net_by self.now.counts self.now.bytes.now).gate k }
    {
        self.records().gate(k)
    }

    // The output capacitance of a driver of the size k.
    pub fn output(&self, k: usize) -> Capacitance
        requires { k < self.now.counts.sizes }
        ensures { result.0 ≡ (net_by self.now.counts self.now.bytes.now).output k }
    {
        self.records().output(k)
    }

    // Where among the widths the table of place p's layer starts. A stage has no layer, and its byte there is zero.
    pub fn first_row(&self, p: usize) -> usize
        requires { p < places_by self.now.counts }
        ensures { result ≡ first_row self.now.counts (byte self.now.bytes.now (place_at self.now.counts p + 15)) }
    {
        self.records().first_row(p)
    }

    // What the wire of place p is read by. A loop over the indices of a place asks it once, before it.
    pub fn table(&self, p: usize) -> Table
        requires { p < places_by self.now.counts }
        ensures { TableOf self.now.counts self.now.bytes.now p result }
    {
        self.records().table(p)
    }

    // Segment i's wire at the width k.
    pub fn wire(&self, table: Table, i: usize, k: usize) -> Wire
        requires table_of { TableOf self.now.counts self.now.bytes.now (self.now.counts.stages + i) table }
        requires i_lt_segments { (i < self.now.counts.segments) × (k < widths_of self.now.counts (segment_layer self.now.counts self.now.bytes.now i)) }
        ensures { WireAt (net_by self.now.counts self.now.bytes.now) i k result }
    {
        self.records().wire(table, i, k)
    }

    // The indices that place p may have. Where they stand is asked once for both.
    pub fn range(&self, p: usize) -> Range
        requires { p < places_by self.now.counts }
        ensures { RangeOf self.now.counts self.now.bytes.now p result }
    {
        self.records().range(p)
    }

    // Is place p a driver, and not a wire?
    pub fn is_driver(&self, p: usize) -> bool
        ensures { result ≡ driver_at self.now.counts p }
    {
        is_driver(self.counts, p)
    }
}
