// What one place adds to the scaled delay, from what is known of the places that it drives, and what all held places add. A place is a driver or a
// wire; tables and sizings go by position.
#![tactic(auto)]

ghost use Rattle.std.specs.Prelude.{◌≡◌, ◌+◌, ◌*◌, ◌<◌, ◌≤◌};
ghost use Rattle.lattice.specs.Lists.{at};
ghost use Rattle.net.specs.Job.{places_by};
ghost use Rattle.net.specs.Driving.{load_at};
ghost use Rattle.net.specs.Order.{placed_by};
ghost use Rattle.job.specs.Tables.{TableOf};
ghost use Rattle.place.specs.Figures.{resistances};
ghost use Rattle.place.specs.ByCounts.{Weighed, BoundsOf, SinkAt, DriveInLimits, IndexAndWeight, SlopeAt, SpotOf, StepInLimits, Stepped, Driven, fixed_delay, onward_from, upstream_of, Upstream, DriverInLimits, DriverStepped, WireInLimits, ChargeInLimits, Charged};

use job::{Job, Table};
use positions::{Arranged, Bounds};
use quantity::{Capacitance, Delay, Resistance};

// The places in driving order, with their weights.
#[derive(Clone, Copy)]
pub struct Places<'a, 'w> {
    pub arranged: Arranged<'a>,
    pub weights: &'w [u64; 76],
    ghost weighed: { Weighed arranged.job.counts arranged.job.bytes.now weights.now },
}

// What a place adds at one of its indices: its part of the scaled delay with what its load costs upstream, and the load that it shows.
#[derive(Clone, Copy)]
pub struct PlaceStep {
    pub delay: Delay,
    pub load: Capacitance,
}

// What the steps of a place need, whatever its index and the load that it drives: what its wire is read by, its weight, and the weighted resistance
// before it. A loop over the indices of a place asks it once, before it.
#[derive(Clone, Copy)]
pub struct Spot {
    pub place: usize,
    pub table: Table,
    pub weight: u64,
    pub before: Resistance,
}

impl Spot {
    // What the steps of the place need, where it has the weight `weight` and the resistance `before` before it.
    pub fn new(job: &Job<'_>, weight: u64, before: Resistance, place: usize) -> Spot
        requires { place < places_by job.now.counts }
        ensures { SpotOf job.now.counts job.now.bytes.now weight before.0 place result }
    {
        Spot {
            place,
            table: job.table(place),
            weight,
            before,
        }
    }

    // The step to the index k, where the place drives the load `driven`.
    pub fn step(&self, job: &Job<'_>, k: usize, driven: Capacitance) -> PlaceStep
        requires table_of { TableOf job.now.counts job.now.bytes.now self.now.place self.now.table }
        requires step_in_limits { StepInLimits job.now.counts job.now.bytes.now self.now.weight self.now.before.0 self.now.place k driven.0 }
        ensures { Stepped job.now.counts job.now.bytes.now self.now.weight self.now.before.0 self.now.place k driven.0 result }
    {
        if job.is_driver(self.place) {
            return self.driver_step(job, k, driven);
        }
        self.wire_step(job, k, driven)
    }

    // The step of a driver to the size k.
    fn driver_step(&self, job: &Job<'_>, k: usize, driven: Capacitance) -> PlaceStep
        requires { DriverInLimits job.now.counts self.now.weight self.now.before.0 k driven.0 }
        ensures { DriverStepped job.now.counts job.now.bytes.now self.now.weight self.now.before.0 k driven.0 result }
    {
        let charged = job.output(k) + driven;
        let own = job
            .driver_resistance(k)
            .charging(charged)
            .weighted(self.weight);
        self.charged_before(own, job.gate(k))
    }

    // The step of a wire to the width k of its layer.
    fn wire_step(&self, job: &Job<'_>, k: usize, driven: Capacitance) -> PlaceStep
        requires table_of { TableOf job.now.counts job.now.bytes.now self.now.place self.now.table }
        requires wire_in_limits { WireInLimits job.now.counts job.now.bytes.now self.now.weight self.now.before.0 self.now.place k driven.0 }
        ensures { Stepped job.now.counts job.now.bytes.now self.now.weight self.now.before.0 self.now.place k driven.0 result }
    {
        let wire = job.wire(self.table, self.place - job.counts.stages, k);
        let charged = wire.capacitance.charged_twice(driven);
        let own = wire.resistance.charging(charged).weighted(self.weight);
        self.charged_before(own, wire.capacitance + driven)
    }

    // A step of the weighted delay `own` and the load `load`, which is charged through the resistance before the place too.
    fn charged_before(&self, own: Delay, load: Capacitance) -> PlaceStep
        requires { ChargeInLimits self.now.before.0 own.0 load.0 }
        ensures { Charged self.now.before.0 own.0 load.0 result }
    {
        PlaceStep {
            delay: own + self.before.charging(load),
            load,
        }
    }
}

// The sink at the far end of place p.
fn sink_at(job: &Job<'_>, p: usize) -> Capacitance
    requires { p < places_by job.now.counts }
    ensures { SinkAt job.now.counts job.now.bytes.now p result.0 }
{
    if job.is_driver(p) {
        return Capacitance(0);
    }
    job.sink(p - job.counts.stages)
}

// The load that place p shows at the index k, where it drives the load `driven`.
fn shown_load(job: &Job<'_>, p: usize, k: u8, driven: Capacitance) -> Capacitance
    requires { DriveInLimits job.now.counts job.now.bytes.now p k driven.0 }
    ensures { result.0 ≡ load_at (placed_by job.now.counts job.now.bytes.now) p k driven.0 }
{
    let index = usize::from(k);
    if job.is_driver(p) {
        return job.gate(index);
    }
    let wire = job.wire(job.table(p), p - job.counts.stages, index);
    wire.capacitance + driven
}

// What the places drive where free places show no load, in one pass from the last position to the first.
#[tactic(auto, using(crate::proofs::Steps::place_few, crate::proofs::Steps::node_few))]
pub fn drive(arranged: &Arranged<'_>, bounds: Bounds<'_>, driven: &mut [Capacitance; 76])
    requires bounds_of { BoundsOf arranged.now.job.counts arranged.now.job.bytes.now bounds }
    ensures { Driven arranged.now.job.counts arranged.now.job.bytes.now bounds.entry.lower.now bounds.entry.upper.now driven.new }
{
    let job = &arranged.job;
    // by node
    let mut gathered = [Capacitance(0); 77];
    for t in (0..job.places()).rev() {
        let p = arranged.order[t];
        let load = sink_at(job, p) + gathered[t + 1];
        driven[t] = load;
        if bounds.lower[t] >= bounds.upper[t] {
            let node = arranged.hangs[t];
            gathered[node] = gathered[node] + shown_load(job, p, bounds.lower[t], load);
        }
    }
}

// What the delay of place p, of the weight `weight` and at the index k, grows by with each unit of the load that it drives.
pub fn slope(job: &Job<'_>, weight: u64, p: usize, k: u8) -> Resistance
    requires { IndexAndWeight job.now.counts job.now.bytes.now weight p k }
    ensures { SlopeAt job.now.counts job.now.bytes.now p k result.0 }
{
    let index = usize::from(k);
    if job.is_driver(p) {
        return job.driver_resistance(index).weighted(weight);
    }
    let wire = job.wire(job.table(p), p - job.counts.stages, index);
    wire.resistance.weighted(2 * weight)
}

// What the delay grows by with each unit of load behind position a.
fn onward(
    places: &Places<'_, '_>,
    bounds: Bounds<'_>,
    upstream: &[Resistance; 76],
    a: usize,
) -> Resistance
    requires bounds_of { BoundsOf places.now.arranged.job.counts places.now.arranged.job.bytes.now bounds }
    requires a_bound { (a < places_by places.now.arranged.job.counts) × (at (resistances upstream.now) a ≤ a * 6528000000) }
    ensures { result.0 ≡ onward_from places.now.arranged.job.counts places.now.arranged.job.bytes.now bounds.entry.lower.now bounds.entry.upper.now upstream.now a }
{
    if bounds.lower[a] < bounds.upper[a] {
        return Resistance(0);
    }
    let arranged = &places.arranged;
    let p = arranged.order[a];
    let own = slope(&arranged.job, places.weights[a], p, bounds.lower[a]);
    if arranged.job.is_driver(p) {
        return own;
    }
    own + upstream[a]
}

// The weighted upstream resistance of position t, from those of the positions before it.
pub fn upstream_at(
    places: &Places<'_, '_>,
    bounds: Bounds<'_>,
    upstream: &[Resistance; 76],
    t: usize,
) -> Resistance
    requires bounds_of { BoundsOf places.now.arranged.job.counts places.now.arranged.job.bytes.now bounds }
    requires t_bound { t < places_by places.now.arranged.job.counts }
    requires upstream { Upstream places.now.arranged.job.counts places.now.arranged.job.bytes.now bounds.lower.now bounds.upper.now t upstream.now }
    ensures { result.0 ≡ upstream_of places.now.arranged.job.counts places.now.arranged.job.bytes.now bounds.entry.lower.now bounds.entry.upper.now upstream.now t }
{
    let node = places.arranged.hangs[t];
    if node == 0 {
        return Resistance(0);
    }
    onward(places, bounds, upstream, node - 1)
}

// The weighted upstream resistances of the first n positions.
pub fn go_upstream(
    places: &Places<'_, '_>,
    bounds: Bounds<'_>,
    upstream: &mut [Resistance; 76],
    n: usize,
)
    requires bounds_of { BoundsOf places.now.arranged.job.counts places.now.arranged.job.bytes.now bounds }
    requires n_bound { n ≤ places_by places.now.arranged.job.counts }
    ensures { Upstream places.now.arranged.job.counts places.now.arranged.job.bytes.now bounds.entry.lower.now bounds.entry.upper.now n upstream.new }
{
    for t in 0..n {
        upstream[t] = upstream_at(places, bounds, upstream, t);
    }
}

// What the places drive where free places show no load, and what the held places add to the delay, in one pass from the last position to the first.
#[tactic(auto, using(crate::proofs::Steps::place_few, crate::proofs::Steps::node_few))]
pub fn drive_and_add(
    places: &Places<'_, '_>,
    bounds: Bounds<'_>,
    driven: &mut [Capacitance; 76],
) -> Delay
    requires bounds_of { BoundsOf places.now.arranged.job.counts places.now.arranged.job.bytes.now bounds }
    ensures loads { Driven places.now.arranged.job.counts places.now.arranged.job.bytes.now bounds.entry.lower.now bounds.entry.upper.now driven.new }
    ensures delay { result.0 ≡ fixed_delay places.now.arranged.job.counts places.now.arranged.job.bytes.now bounds.entry.lower.now bounds.entry.upper.now driven.new }
{
    let arranged = &places.arranged;
    let job = &arranged.job;
    // by node
    let mut gathered = [Capacitance(0); 77];
    let mut sum = Delay(0);
    for t in (0..job.places()).rev() {
        let p = arranged.order[t];
        let load = sink_at(job, p) + gathered[t + 1];
        driven[t] = load;
        if bounds.lower[t] >= bounds.upper[t] {
            let spot = Spot::new(job, places.weights[t], Resistance(0), p);
            let step = spot.step(job, usize::from(bounds.lower[t]), load);
            let node = arranged.hangs[t];
            gathered[node] = gathered[node] + step.load;
            sum = sum + step.delay;
        }
    }
    sum
}
