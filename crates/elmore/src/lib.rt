// The delay and the load figure of a sized net, in time linear in its segments.
#![tactic(auto)]

ghost use Rattle.std.specs.Prelude.{◌≡◌, ◌<◌, ◌≤◌};
ghost use Rattle.net.specs.Net.{net_by};
ghost use Rattle.net.specs.Delay.{delay as delay_of};
ghost use Rattle.links.specs.Links.{siblings, LinkedBy};
ghost use Rattle.parts.specs.Tally.{branch_of, FiguresOf, RepeatersCharge, WholeOf};
ghost use Rattle.elmore.specs.Tables.{SizedTo};
ghost use Rattle.elmore.specs.Walks.{Parted, AllParted, CountedUp, net_of, sizing_of};

mod tables;

use job::Wire;
use links::Links;
use parts::{NOTHING, Part, PartAndCharge, Segment};
use quantity::{Capacitance, Delay, Resistance};
use stages::{DelayAndLoad, WeighedJob};
use tables::Walk;

// A segment that is not sized yet.
const UNSIZED: Segment = Segment {
    weight: 0,
    sink: Capacitance(0),
    wire: Wire {
        resistance: Resistance(0),
        capacitance: Capacitance(0),
    },
};

// The segments, as the sizing has them: the walk over the tree then reads no job. The table is lent, because one that is returned is copied.
fn size_segments(net: &WeighedJob<'_, '_, '_>, segments: &mut [Segment; 64])
    ensures { SizedTo (net_by net.now.sized.job.counts net.now.sized.job.bytes.now) net.now.sized.sizing.now net.now.sized.job.counts.segments segments.new }
{
    for i in 0..net.sized.job.counts.segments {
        segments[i] = parts::sized(net, i);
    }
}

impl Walk<'_, '_, '_> {
    // Segment i and all below it. Where nothing is below it no call is made, because half of a tree's segments are such; where a repeater sits at its
    // far end, what hangs there is in the table, and the branches behind it are not walked.
    #[cycle(branch_branches)]
    fn branch(&self, i: usize) -> Part
        requires parted { Parted self.now i }
        requires i_lt_segments { i < self.now.net.now.job.counts.segments }
        ensures { CountedUp self.now branch_of i result }
    {
        let segment = self.segments[i];
        let child = self.links.first[i + 1];
        if child == self.net.job.counts.segments {
            return segment.behind(NOTHING);
        }
        match self.seats[i] {
            Some(r) => segment.behind(self.parts[usize::from(r)]),
            None => segment.behind(self.branches(child)),
        }
    }

    // Segment j and its siblings after it, each with all below it; past the last segment there is none.
    #[cycle(branch_branches)]
    fn branches(&self, j: usize) -> Part
        requires parted { Parted self.now j }
        requires j_le_segments { j ≤ self.now.net.now.job.counts.segments }
        ensures { CountedUp self.now siblings j result }
    {
        let mut sum = NOTHING;
        let mut i = j;
        while i < self.net.job.counts.segments {
            sum = sum + self.branch(i);
            i = self.links.next[i];
        }
        sum
    }

    // Counts up what hangs at each repeater's segment, and answers what all repeaters charge. From the last repeater to the first: those behind it have
    // larger numbers.
    fn repeat_all(&mut self) -> Capacitance
        ensures kept { self.new.net ≡ self.old.net }
        ensures parts { AllParted self.new }
        ensures charge { RepeatersCharge (net_of self.new) (sizing_of self.new) result }
    {
        let mut all = Capacitance(0);
        for r in (0..self.net.job.counts.repeaters).rev() {
            let top = self.links.first[self.net.job.site(r) + 1];
            let one = parts::repeated(self.net, r, self.branches(top));
            self.parts[r] = one.part;
            all = all + one.charge;
        }
        all
    }
}

// The whole tree: the branches at the source, and what all repeaters charge.
fn whole(net: &WeighedJob<'_, '_, '_>, links: &Links) -> PartAndCharge
    requires { LinkedBy net.now.sized.job.counts net.now.sized.job.bytes.now links.now.first links.now.next }
    ensures { WholeOf (net_by net.now.sized.job.counts net.now.sized.job.bytes.now) net.now.sized.sizing.now result }
{
    let mut segments = [UNSIZED; 64];
    size_segments(net, &mut segments);
    let mut seats = [None; 64];
    parts::seat(&net.sized.job, &mut seats);
    let mut walk = Walk {
        net: &net.sized,
        links: &*links,
        segments: &segments,
        seats: &seats,
        parts: [NOTHING; 8],
    };
    let charge = walk.repeat_all();
    PartAndCharge {
        part: walk.branches(links.first[0]),
        charge,
    }
}

// The scaled delay and the load figure of a sizing. The figure is what the stages and the repeaters charge: each gate but the first, and all of the
// tree, is driven by one.
pub fn figures(net: &WeighedJob<'_, '_, '_>, links: &Links) -> DelayAndLoad
    requires linked_by { LinkedBy net.now.sized.job.counts net.now.sized.job.bytes.now links.now.first links.now.next }
    ensures { FiguresOf (net_by net.now.sized.job.counts net.now.sized.job.bytes.now) net.now.sized.sizing.now result }
{
    let tree = whole(net, links);
    let chain = parts::behind_stages(&net.sized, tree.part);
    DelayAndLoad {
        delay: chain.delay,
        load: chain.load + tree.charge,
    }
}

// The scaled delay of a sizing.
pub fn delay(net: &WeighedJob<'_, '_, '_>, links: &Links) -> Delay
    requires linked_by { LinkedBy net.now.sized.job.counts net.now.sized.job.bytes.now links.now.first links.now.next }
    ensures { result.0 ≡ delay_of (net_by net.now.sized.job.counts net.now.sized.job.bytes.now) net.now.sized.sizing.now }
{
    figures(net, links).delay
}
