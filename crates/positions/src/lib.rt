// The places of a net in driving order: the stages, then each segment and directly behind it its repeater. A place's number there is called its
// position; each stands after the one that drives it, so that one pass from the last position to the first finds what all drive.
#![tactic(auto)]

ghost use Rattle.std.specs.Prelude.{◌≡◌, ◌+◌, ◌<◌, set};
ghost use Rattle.net.specs.Job.{places_by};
ghost use Rattle.net.specs.Net.{net_by};
ghost use Rattle.net.specs.Order.{Run, InOrder};
ghost use Rattle.positions.specs.Arranged.{AllInOrder, HangsAt, PlacesInOrder, PositionsOf, NodesOf};

use job::Job;

// A job with its driving order: the places by position, and by position the node that it hangs at.
#[derive(Clone, Copy)]
pub struct Arranged<'a> {
    pub job: Job<'a>,
    pub order: &'a [usize; 76],
    pub hangs: &'a [usize; 76],
    ghost in_order: { PlacesInOrder job.counts job.bytes.now order.now },
    ghost nodes: { NodesOf job.counts job.bytes.now hangs.now },
}

// Two sizings by position, that free places are sized between.
#[derive(Clone, Copy)]
pub struct Bounds<'b> {
    pub lower: &'b [u8],
    pub upper: &'b [u8],
}

// The places by position, and the position of each place: tables for `arrange` to fill, lent because tables that are returned are copied.
#[derive(Clone, Copy)]
pub struct Tables {
    pub order: [usize; 76],
    pub position: [usize; 76],
}

impl Tables {
    // Puts place p at position t.
    fn put(&mut self, p: usize, t: usize)
        requires { (p < 76) × (t < 76) }
        ensures order { self.new.order ≡ set self.old.order t p }
        ensures position { self.new.position ≡ set self.old.position p t }
    {
        self.order[t] = p;
        self.position[p] = t;
    }

    // Puts the places from `start` to `end`, the end left out, behind which `passed` repeaters have been put.
    fn put_run(&mut self, job: &Job<'_>, start: usize, end: usize, passed: usize)
        requires run { Run (net_by job.now.counts job.now.bytes.now) start end passed }
        requires in_order { InOrder (net_by job.now.counts job.now.bytes.now) (start + passed) self.old.order self.old.position }
        ensures { InOrder (net_by job.now.counts job.now.bytes.now) (end + passed) self.new.order self.new.position }
    {
        for p in start..end {
            self.put(p, p + passed);
        }
    }
}

// Puts all places in order: run after run of those between two repeaters.
fn put_in_order(job: &Job<'_>, tables: &mut Tables)
    ensures { AllInOrder job.now.counts job.now.bytes.now tables.new.order tables.new.position }
{
    let places = job.counts.stages + job.counts.segments;
    let mut start = 0;
    for r in 0..job.counts.repeaters {
        let end = job.counts.stages + job.site(r) + 1;
        tables.put_run(job, start, end, r);
        tables.put(places + r, end + r);
        start = end;
    }
    tables.put_run(job, start, places, job.counts.repeaters);
}

// The node that place p hangs at: a segment at the position of the segment whose number is its parent byte, because the branches at a node hang
// behind all that stands before that segment; a driver directly behind the place before it.
fn hangs_at(job: &Job<'_>, position: &[usize; 76], p: usize) -> usize
    requires positions_of { PositionsOf job.now.counts job.now.bytes.now position.now }
    requires p_bound { p < places_by job.now.counts }
    ensures { HangsAt job.now.counts job.now.bytes.now p result }
{
    if job.is_driver(p) {
        return position[p];
    }
    let node = job.parent(p - job.counts.stages);
    position[job.counts.stages + node]
}

// Fills the tables of the driving order, whatever they held before: the places by position and the position of each place, and by position the node
// that it hangs at.
pub fn arrange(job: &Job<'_>, tables: &mut Tables, hangs: &mut [usize; 76])
    ensures order { PlacesInOrder job.now.counts job.now.bytes.now tables.new.order }
    ensures position { PositionsOf job.now.counts job.now.bytes.now tables.new.position }
    ensures hangs { NodesOf job.now.counts job.now.bytes.now hangs.new }
{
    put_in_order(job, tables);
    for t in 0..job.places() {
        hangs[t] = hangs_at(job, &tables.position, tables.order[t]);
    }
}
