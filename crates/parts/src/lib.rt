// Parts of the tree and what is counted up over them: a segment with what hangs at its far end, branches behind a repeater, the whole behind the
// stages.
#![tactic(auto)]

ghost use Rattle.std.specs.Prelude.{◌≡◌, suc, ◌*◌, ◌<◌};
ghost use Rattle.net.specs.Net.{net_by};
ghost use Rattle.parts.specs.Step.{Fields, lag, RoomCharged, RoomBehind, Behind, RoomJoined, Joined};
ghost use Rattle.parts.specs.Seats.{Seated};
ghost use Rattle.parts.specs.Tally.{branches_of, RepeatedOf, Tally, BehindStages};

use job::{Job, Wire};
use quantity::{Capacitance, Delay};
use stages::{DelayAndLoad, SizedJob, WeighedJob};
use std::ops::Add;

// A segment with its wire at the sizing's width.
#[derive(Clone, Copy)]
pub struct Segment {
    pub weight: u64,
    pub sink: Capacitance,
    pub wire: Wire,
}

// A part of the tree: the weight of its sinks, its load as it is seen from above, and the scaled delay that arises inside it.
#[derive(Clone, Copy)]
pub struct Part {
    pub weight: u64,
    pub load: Capacitance,
    pub delay: Delay,
}

// What hangs at a repeater's segment, and what the repeater charges; or the branches at the source, and what all repeaters charge.
#[derive(Clone, Copy)]
pub struct PartAndCharge {
    pub part: Part,
    pub charge: Capacitance,
}

// No part of the tree.
pub const NOTHING: Part = Part {
    weight: 0,
    load: Capacitance(0),
    delay: Delay(0),
};

// Two parts together.
impl Add for Part {
    type Output = Part;

    ghost can_add = { RoomJoined };

    ghost add_gives = { Joined };

    fn add(self, other: Part) -> Part {
        Part {
            weight: self.weight + other.weight,
            load: self.load + other.load,
            delay: self.delay + other.delay,
        }
    }
}

// Twice what a segment contributes to every sink behind it, by its wire and the load under it.
fn segment_delay(wire: Wire, under: Capacitance) -> Delay
    requires { RoomCharged wire under.0 }
    ensures { result.0 ≡ lag wire under.0 }
{
    wire.resistance
        .charging(wire.capacitance.charged_twice(under))
}

impl Segment {
    // The segment with the part of the tree that hangs at its far end.
    pub fn behind(self, part: Part) -> Part
        requires { RoomBehind self part }
        ensures { Behind self part result }
    {
        let weight = self.weight + part.weight;
        let under = self.sink + part.load;
        Part {
            weight,
            load: self.wire.capacitance + under,
            delay: segment_delay(self.wire, under).weighted(weight) + part.delay,
        }
    }
}

// Segment i, as the sizing has it.
pub fn sized(net: &WeighedJob<'_, '_, '_>, i: usize) -> Segment
    requires { i < net.now.sized.job.counts.segments }
    ensures { Fields (net_by net.now.sized.job.counts net.now.sized.job.bytes.now) net.now.sized.sizing.now i result }
{
    let job = &net.sized.job;
    let p = job.counts.stages + i;
    Segment {
        weight: u64::from(net.weights[i]),
        sink: job.sink(i),
        wire: job.wire(job.table(p), i, usize::from(net.sized.sizing[p])),
    }
}

// Gives each repeater its seat: its number stands at its segment. The table is lent, because one that is returned is copied.
pub fn seat(job: &Job<'_>, seats: &mut [Option<u8>; 64])
    ensures { Seated (net_by job.now.counts job.now.bytes.now) seats.new }
{
    *seats = [None; 64];
    for r in 0..job.counts.repeaters {
        let i = job.site(r);
        seats[i] = Some(r as u8);
    }
}

// The branches that repeater r drives, as they hang behind it: above it only its gate is seen, and each sink below it waits for it. And what it
// charges.
pub fn repeated(net: &SizedJob<'_, '_>, r: usize, part: Part) -> PartAndCharge
    requires r_lt_repeaters { r < net.now.job.counts.repeaters }
    requires tally { Tally (net_by net.now.job.counts net.now.job.bytes.now) net.now.sizing.now branches_of (suc ((net_by net.now.job.counts net.now.job.bytes.now).site r)) part }
    ensures { RepeatedOf (net_by net.now.job.counts net.now.job.bytes.now) net.now.sizing.now r result }
{
    let size = usize::from(net.sizing[net.job.counts.stages + net.job.counts.segments + r]);
    let seen = net.job.gate(size);
    let driven = stages::driver(&net.job, size, part.load);
    PartAndCharge {
        part: Part {
            weight: part.weight,
            load: seen,
            delay: driven.delay.weighted(2 * part.weight) + part.delay,
        },
        charge: driven.load,
    }
}

// The scaled delay, where the branches at the source are counted up, and what the stages charge.
pub fn behind_stages(net: &SizedJob<'_, '_>, source: Part) -> DelayAndLoad
    requires { Tally (net_by net.now.job.counts net.now.job.bytes.now) net.now.sizing.now branches_of 0 source }
    ensures { BehindStages (net_by net.now.job.counts net.now.job.bytes.now) net.now.sizing.now result }
{
    let chain = stages::stages(net, source.load);
    DelayAndLoad {
        delay: chain.delay.weighted(2).weighted(source.weight) + source.delay,
        load: chain.load,
    }
}
