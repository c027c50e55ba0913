// What a search goes by and does not change: where the load of each place arrives, and which places are free, with what the held ones drive.
ghost use Rattle.std.specs.Prelude.{◌≡◌, ◌≤◌};
ghost use Rattle.net.specs.Job.{places_by};
ghost use Rattle.place.specs.Figures.{loads, resistances};
ghost use Rattle.place.specs.ByCounts.{fixed_delay};
ghost use Rattle.free.specs.Searching.{Between, Prepared, BothLong, Skipped, arrives_at, Lifted};

use job::Job;
use place::Places;
use positions::{Arranged, Bounds};
use quantity::{Capacitance, Delay, Resistance};

// The node at which a load at `node` arrives, through the held wires above it.
fn arrival(arranged: &Arranged<'_>, bounds: Bounds<'_>, ups: &[usize; 76], node: usize) -> usize
    requires both_long { BothLong arranged.now.job.counts bounds.lower.now bounds.upper.now }
    requires node_bound { node ≤ places_by arranged.now.job.counts }
    ensures { result ≡ arrives_at arranged.now.job.counts arranged.now.job.bytes.now bounds.entry.lower.now bounds.entry.upper.now ups.now node }
{
    if node == 0 {
        return 0;
    }
    let a = node - 1;
    if bounds.lower[a] < bounds.upper[a] {
        return node;
    }
    if arranged.job.is_driver(arranged.order[a]) {
        return node;
    }
    ups[a]
}

// The nodes at which the loads of the positions arrive.
pub fn lift(arranged: &Arranged<'_>, bounds: Bounds<'_>, ups: &mut [usize; 76])
    requires { BothLong arranged.now.job.counts bounds.lower.now bounds.upper.now }
    ensures { Lifted arranged.now.job.counts arranged.now.job.bytes.now bounds.entry.lower.now bounds.entry.upper.now ups.new }
{
    for t in 0..arranged.job.places() {
        ups[t] = arrival(arranged, bounds, ups, arranged.hangs[t]);
    }
}

// Of how many places the last one is free, up to each place.
pub fn skip(job: &Job<'_>, bounds: Bounds<'_>, skips: &mut [usize; 77])
    requires { BothLong job.now.counts bounds.lower.now bounds.upper.now }
    ensures { Skipped job.now.counts bounds.entry.lower.now bounds.entry.upper.now skips.new }
{
    skips[0] = 0;
    for t in 0..job.places() {
        let last = if bounds.lower[t] < bounds.upper[t] {
            t + 1
        } else {
            skips[t]
        };
        skips[t + 1] = last;
    }
}

// The places and the bounds of a search, and by position the weighted resistances upstream, the loads that the held places make each drive, the nodes
// at which loads arrive, and of how many places the last one is free. The tables are lent, because tables that are returned are copied.
#[derive(Clone, Copy)]
pub struct SearchTables<'a, 'w, 'b, 't> {
    pub job: Job<'a>,
    pub order: &'a [usize; 76],
    pub weights: &'w [u64; 76],
    pub bounds: Bounds<'b>,
    pub upstream: &'t [Resistance; 76],
    pub driven: &'t [Capacitance; 76],
    pub ups: &'t [usize; 76],
    pub skips: &'t [usize; 77],
    ghost prepared: { Prepared job.counts job.bytes.now order.now weights.now (resistances upstream.now) (loads driven.now) ups.now skips.now bounds.lower.now bounds.upper.now },
}

impl<'a, 'w, 'b, 't> SearchTables<'a, 'w, 'b, 't> {
    // A search between two bounds, by lent tables, whatever they held before, and what the held places add to the delay.
    pub fn new(
        places: &Places<'a, 'w>,
        bounds: Bounds<'b>,
        upstream: &'t mut [Resistance; 76],
        driven: &'t mut [Capacitance; 76],
        ups: &'t mut [usize; 76],
        skips: &'t mut [usize; 77],
    ) -> (SearchTables<'a, 'w, 'b, 't>, Delay)
        requires { Between places.now.arranged.job.counts places.now.arranged.job.bytes.now bounds.lower.now bounds.upper.now }
        ensures same_places { (result.0.job ≡ places.now.arranged.job) × (result.0.order ≡ places.now.arranged.order) × (result.0.weights ≡ places.now.weights) }
        ensures same_bounds { result.0.bounds ≡ bounds.entry }
        ensures held_add { result.1.0 ≡ fixed_delay places.now.arranged.job.counts places.now.arranged.job.bytes.now bounds.entry.lower.now bounds.entry.upper.now result.0.driven.now }
    {
        let arranged = &places.arranged;
        let fixed = place::drive_and_add(places, bounds, driven);
        place::go_upstream(places, bounds, upstream, arranged.job.places());
        lift(arranged, bounds, ups);
        skip(&arranged.job, bounds, skips);
        let search = SearchTables {
            job: arranged.job,
            order: arranged.order,
            weights: places.weights,
            bounds,
            upstream: &*upstream,
            driven: &*driven,
            ups: &*ups,
            skips: &*skips,
        };
        (search, fixed)
    }
}
