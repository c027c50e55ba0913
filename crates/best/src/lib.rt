// The best indices at one place of an allowed sizing, the rest held, and the delay that they reach.
#![tactic(auto)]

ghost use Rattle.std.specs.Prelude.{◌≡◌, ◌<◌};
ghost use Rattle.net.specs.Job.{places_by};
ghost use Rattle.net.specs.Checked.{AllowedBy};
ghost use Rattle.net.specs.Order.{placed_by};
ghost use Rattle.best.specs.Reached.{ReachedBy};
ghost use Rattle.best.specs.Around.{Drives, DrivenAt, UpstreamOf};

mod around;

use around::Tree;
use place::Spot;
use quantity::{Capacitance, Delay, Resistance};
use stages::WeighedJob;

// The smallest and the largest best index at a place, and the scaled delay of the sizing with either of them put there.
#[derive(Clone, Copy)]
pub struct EndsAndDelay {
    pub lowest: u8,
    pub highest: u8,
    pub delay: Delay,
}

impl Tree<'_, '_, '_> {
    // The place that drives place p, which is not the first stage. A segment is driven by the last stage where it hangs at the source, and otherwise by
    // the repeater at the far end that it hangs at, or by the segment there.
    fn drives(&self, p: usize) -> usize
        requires { (0 < p) × (p < places_by self.now.net.now.job.counts) }
        ensures { Drives self.now.net.now.job.counts self.now.net.now.job.bytes.now p result }
    {
        let job = &self.net.job;
        let stages = job.counts.stages;
        if p < stages {
            return p - 1;
        }
        let i = p - stages;
        if job.counts.segments <= i {
            return stages + job.site(i - job.counts.segments);
        }
        let node = job.parent(i);
        if node == 0 {
            return stages - 1;
        }
        match self.seats[node - 1] {
            Some(r) => stages + job.counts.segments + usize::from(r),
            None => stages + (node - 1),
        }
    }

    // The weight of place p: of a segment that of the sinks at or below its far end, of a driver twice that of the sinks that it drives.
    fn weight_at(&self, p: usize) -> u64
        requires { p < places_by self.now.net.now.job.counts }
        ensures { result ≡ (placed_by self.now.net.now.job.counts self.now.net.now.job.bytes.now).weight p }
    {
        let job = &self.net.job;
        if p < job.counts.stages {
            return 2 * self.nodes[0].weight;
        }
        let i = p - job.counts.stages;
        if i < job.counts.segments {
            return u64::from(self.weights[i]) + self.nodes[i + 1].weight;
        }
        let site = job.site(i - job.counts.segments);
        2 * self.nodes[site + 1].weight
    }

    // The load that place p drives.
    fn driven_at(&self, p: usize) -> Capacitance
        requires { p < places_by self.now.net.now.job.counts }
        ensures { DrivenAt self.now.net.now.job.counts self.now.net.now.job.bytes.now self.now.net.now.sizing.now p result.0 }
    {
        let job = &self.net.job;
        if p < job.counts.stages {
            return stages::stage_load(self.net, self.nodes[0].load, p);
        }
        let i = p - job.counts.stages;
        if i < job.counts.segments {
            let hangs = nodes::hanging(self.net, self.seats, i, self.nodes[i + 1]);
            return job.sink(i) + hangs.load;
        }
        let site = job.site(i - job.counts.segments);
        self.nodes[site + 1].load
    }

    // The weighted resistance upstream of place p: along the path to the driver before it, and no further.
    fn upstream_of(&self, p: usize) -> Resistance
        requires { p < places_by self.now.net.now.job.counts }
        ensures { UpstreamOf self.now.net.now.job.counts self.now.net.now.job.bytes.now self.now.net.now.sizing.now p result.0 }
    {
        let job = &self.net.job;
        let mut sum = Resistance(0);
        let mut a = p;
        while a > 0 {
            a = self.drives(a);
            sum = sum + place::slope(job, self.weight_at(a), a, self.net.sizing[a]);
            if job.is_driver(a) {
                return sum;
            }
        }
        sum
    }
}

// The best indices at a place of an allowed sizing, and the delay that they reach. With the index at the place the delay changes as what the index
// costs there, so the net is not evaluated for each.
pub fn refine_at(net: &WeighedJob<'_, '_, '_>, place: usize) -> EndsAndDelay
    requires allowed_by { AllowedBy net.now.sized.job.counts net.now.sized.job.bytes.now net.now.sized.sizing.now }
    requires place_bound { place < places_by net.now.sized.job.counts }
    ensures { ReachedBy net.now.sized.job.counts net.now.sized.job.bytes.now net.now.sized.sizing.now place result }
{
    let job = &net.sized.job;
    let mut seats = [None; 64];
    parts::seat(job, &mut seats);
    let mut nodes = [parts::NOTHING; 65];
    nodes::count_up(net, &seats, &mut nodes);
    let tree = Tree {
        net: &net.sized,
        weights: net.weights,
        seats: &seats,
        nodes: &nodes,
    };
    let lent = parts::behind_stages(&net.sized, nodes[0]).delay;
    let weight = tree.weight_at(place);
    let load = tree.driven_at(place);
    let before = tree.upstream_of(place);
    let ends = refine::settle(job, weight, before, place, load);
    let spot = Spot::new(job, weight, before, place);
    let own = spot
        .step(job, usize::from(net.sized.sizing[place]), load)
        .delay;
    EndsAndDelay {
        lowest: ends.lowest,
        highest: ends.highest,
        delay: lent.exchange(own, ends.cost),
    }
}
