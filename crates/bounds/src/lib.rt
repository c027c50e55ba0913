// The lower and the upper bound of a net, found by refining at each place until no index changes, and the room between them. Sizings go by position.
#![tactic(auto)]

ghost use Rattle.std.specs.Prelude.{◌≡◌, suc, ◌-◌, ◌<◌, ◌≤◌};
ghost use Rattle.net.specs.Job.{places_by};
ghost use Rattle.net.specs.Order.{placed_by};
ghost use Rattle.net.specs.Checked.{ForPlaces};
ghost use Rattle.lattice.specs.SideOf.{side_of};
ghost use Rattle.refine.specs.Settled.{end_from};
ghost use Rattle.bounds.specs.Sweep.{first_at, ApproachingFrom, SweptFrom, BoundFrom};
ghost use Rattle.bounds.specs.Between.{Between, roomy};

use job::Job;
use lattice::Side;
use place::Places;
use positions::{Arranged, Bounds};
use quantity::{Capacitance, Resistance};
use refine::Ends;

// The first index of place p, seen from a side.
fn first_at(job: &Job<'_>, p: usize, side: Side) -> u8
    requires { p < places_by job.now.counts }
    ensures { result ≡ first_at (side_of side) (placed_by job.now.counts job.now.bytes.now) p }
{
    let range = job.range(p);
    match side {
        Side::Below => range.lowest,
        Side::Above => range.highest,
    }
}

// Puts the first index at each position: where refining starts.
#[tactic(auto, using(place::proofs::Steps::place_few))]
fn start(arranged: &Arranged<'_>, x: &mut [u8], side: Side)
    requires { ForPlaces arranged.now.job.counts x.old }
    ensures { ApproachingFrom arranged.now.job.counts arranged.now.job.bytes.now (side_of side) x.new }
{
    for t in 0..arranged.job.places() {
        x[t] = first_at(&arranged.job, arranged.order[t], side);
    }
}

// The end of a tie that is taken from a side.
fn end_from(ends: Ends, side: Side) -> u8
    ensures { result ≡ end_from (side_of side) ends }
{
    match side {
        Side::Below => ends.lowest,
        Side::Above => ends.highest,
    }
}

// Refines at each position in turn, and tells whether an index changed. What the places drive is found once: a place drives what stands after it,
// and an index is put only before that.
#[tactic(auto, using(place::proofs::Steps::place_few))]
fn sweep(places: &Places<'_, '_>, x: &mut [u8], side: Side) -> bool
    requires { ApproachingFrom places.now.arranged.job.counts places.now.arranged.job.bytes.now (side_of side) x.old }
    ensures { SweptFrom places.now.arranged.job.counts places.now.arranged.job.bytes.now (side_of side) x.old x.new result }
{
    let arranged = &places.arranged;
    // by position
    let mut driven = [Capacitance(0); 76];
    place::drive(arranged, Bounds { lower: x, upper: x }, &mut driven);
    // by position
    let mut upstream = [Resistance(0); 76];
    let mut changed = false;
    for t in 0..arranged.job.places() {
        let before = place::upstream_at(places, Bounds { lower: x, upper: x }, &upstream, t);
        upstream[t] = before;
        let ends = refine::settle(
            &arranged.job,
            places.weights[t],
            before,
            arranged.order[t],
            driven[t],
        );
        let best = end_from(ends, side);
        changed |= best != x[t];
        x[t] = best;
    }
    changed
}

// The bound from a side, whatever x held before.
pub fn bound(places: &Places<'_, '_>, x: &mut [u8], side: Side)
    requires { ForPlaces places.now.arranged.job.counts x.old }
    ensures { BoundFrom places.now.arranged.job.counts places.now.arranged.job.bytes.now (side_of side) x.new }
{
    start(&places.arranged, x, side);
    while sweep(places, x, side) {}
}

// How many indices there are from a to b, both included.
fn choices(a: u8, b: u8) -> u64
    requires { a ≤ b }
    ensures { (result ≡ suc (b - a)) × (result ≤ 256) }
{
    u64::from(b - a) + 1
}

// Is room, the product of the numbers of indices between the bounds, at most 65,536?
pub fn room_fits(bounds: Bounds<'_>, n: usize) -> bool
    requires { Between n bounds.lower.now bounds.upper.now }
    ensures { result ≡ roomy n bounds.entry.lower.now bounds.entry.upper.now }
{
    let mut room = 1;
    for p in 0..n {
        room *= choices(bounds.lower[p], bounds.upper[p]);
        if room > 65536 {
            return false;
        }
    }
    true
}
