// The fields of a job's records, once they are counted by kind.
ghost use Rattle.std.specs.Prelude.{◌≡◌, ◌+◌, ◌^◌, ◌<◌, ◌≤◌};
ghost use Rattle.net.specs.Job.{byte, word, width_at, widths_of, first_row, size_at, place_at, segment_layer, places_by};
ghost use Rattle.net.specs.Net.{net_by};
ghost use Rattle.job.specs.WireAt.{WireAt};
ghost use Rattle.job.specs.Ranges.{RangeAt, RangeOf};
ghost use Rattle.job.specs.Tables.{TableOf};

use super::{Range, Records, Table, Wire, word_at};
use quantity::{Capacitance, Resistance};

impl Records<'_> {
    // A byte of place p's record.
    pub fn place_byte(&self, p: usize, at: usize) -> u8
        requires { (p < places_by self.now.counts) × (at < 16) }
        ensures { result ≡ byte self.now.bytes.now (place_at self.now.counts p + at) }
    {
        self.bytes[16 * (self.counts.widths + self.counts.sizes + p) + at]
    }

    // A word of place p's record.
    pub fn place_word(&self, p: usize, at: usize) -> u64
        requires { (p < places_by self.now.counts) × (at ≤ 12) }
        ensures { (result ≡ word self.now.bytes.now (place_at self.now.counts p + at)) × (result < 2 ^ 32) }
    {
        word_at(
            self.bytes,
            16 * (self.counts.widths + self.counts.sizes + p) + at,
        )
    }

    // A word of width k's record.
    pub fn row_word(&self, k: usize, at: usize) -> u64
        requires { (k < self.now.counts.widths) × (at ≤ 12) }
        ensures { (result ≡ word self.now.bytes.now (width_at k + at)) × (result < 2 ^ 32) }
    {
        word_at(self.bytes, 16 * k + at)
    }

    // A word of driver size k's record.
    pub fn size_word(&self, k: usize, at: usize) -> u64
        requires { (k < self.now.counts.sizes) × (at ≤ 12) }
        ensures { (result ≡ word self.now.bytes.now (size_at self.now.counts k + at)) × (result < 2 ^ 32) }
    {
        word_at(self.bytes, 16 * (self.counts.widths + k) + at)
    }

    // The node that segment i hangs at.
    pub fn parent(&self, i: usize) -> usize
        requires { i < self.now.counts.segments }
        ensures { result ≡ (net_by self.now.counts self.now.bytes.now).parent i }
    {
        usize::from(self.place_byte(self.counts.stages + i, 2))
    }

    // The capacitance of segment i's sink.
    pub fn sink(&self, i: usize) -> Capacitance
        requires { i < self.now.counts.segments }
        ensures { result.0 ≡ (net_by self.now.counts self.now.bytes.now).sink i }
    {
        Capacitance(self.place_word(self.counts.stages + i, 8))
    }

    // The segment at whose far end repeater r sits.
    pub fn site(&self, r: usize) -> usize
        requires { r < self.now.counts.repeaters }
        ensures { result ≡ (net_by self.now.counts self.now.bytes.now).site r }
    {
        usize::from(self.place_byte(self.counts.stages + self.counts.segments + r, 2))
    }

    // The resistance of a driver of the size k.
    pub fn driver_resistance(&self, k: usize) -> Resistance
        requires { k < self.now.counts.sizes }
        ensures { result.0 ≡ (net_by self.now.counts self.now.bytes.now).driver_resistance k }
    {
        Resistance(self.size_word(k, 4))
    }

    // The gate capacitance of a driver of the size k.
    pub fn gate(&self, k: usize) -> Capacitance
        requires { k < self.now.counts.sizes }
        ensures { result.0 ≡ (net_by self.now.counts self.now.bytes.now).gate k }
    {
        Capacitance(self.size_word(k, 8))
    }

    // The output capacitance of a driver of the size k.
    pub fn output(&self, k: usize) -> Capacitance
        requires { k < self.now.counts.sizes }
        ensures { result.0 ≡ (net_by self.now.counts self.now.bytes.now).output k }
    {
        Capacitance(self.size_word(k, 12))
    }

    // Where among the widths the table of place p's layer starts. A stage has no layer, and its byte there is zero.
    pub fn first_row(&self, p: usize) -> usize
        requires { p < places_by self.now.counts }
        ensures { result ≡ first_row self.now.counts (byte self.now.bytes.now (place_at self.now.counts p + 15)) }
    {
        if self.place_byte(p, 15) == 0 {
            return 0;
        }
        self.counts.layer0
    }

    // What the wire of place p is read by. A loop over the indices of a place asks it once, before it.
    pub fn table(&self, p: usize) -> Table
        requires { p < places_by self.now.counts }
        ensures { TableOf self.now.counts self.now.bytes.now p result }
    {
        Table {
            rows: self.first_row(p),
            length: self.place_word(p, 4),
        }
    }

    // Segment i's wire at the width k.
    pub fn wire(&self, table: Table, i: usize, k: usize) -> Wire
        requires table_of { TableOf self.now.counts self.now.bytes.now (self.now.counts.stages + i) table }
        requires i_lt_segments { (i < self.now.counts.segments) × (k < widths_of self.now.counts (segment_layer self.now.counts self.now.bytes.now i)) }
        ensures { WireAt (net_by self.now.counts self.now.bytes.now) i k result }
    {
        let row = table.rows + k;
        Wire {
            resistance: Resistance(self.row_word(row, 4)).along(table.length),
            capacitance: Capacitance(self.row_word(row, 8)).along(table.length),
        }
    }

    // Where the range of place p stands in its record: the lowest index, and behind it the highest.
    fn range_at(&self, p: usize) -> usize
        requires { p < places_by self.now.counts }
        ensures { RangeAt self.now.counts p result }
    {
        if p < self.counts.stages {
            return 2;
        }
        if p - self.counts.stages < self.counts.segments {
            return 13;
        }
        3
    }

    // The indices that place p may have. Where they stand is asked once for both.
    pub fn range(&self, p: usize) -> Range
        requires { p < places_by self.now.counts }
        ensures { RangeOf self.now.counts self.now.bytes.now p result }
    {
        let at = self.range_at(p);
        Range {
            lowest: self.place_byte(p, at),
            highest: self.place_byte(p, at + 1),
        }
    }
}
