// What hangs at each node of the tree, in one pass from the last segment to the first: what is below a segment has larger numbers.
#![tactic(auto)]

ghost use Rattle.std.specs.Prelude.{◌≡◌, suc, ◌<◌};
ghost use Rattle.net.specs.Net.{net_by};
ghost use Rattle.parts.specs.Seats.{Seated};
ghost use Rattle.parts.specs.Tally.{branch_of, branches_of, Tally, Hanging};
ghost use Rattle.nodes.specs.Counted.{Counted};

use parts::Part;
use stages::{SizedJob, WeighedJob};

// What hangs at the far end of segment i, behind the repeater if one sits there; `part` is the branches there.
pub fn hanging(net: &SizedJob<'_, '_>, seats: &[Option<u8>; 64], i: usize, part: Part) -> Part
    requires seated { Seated (net_by net.now.job.counts net.now.job.bytes.now) seats.now }
    requires i_lt_segments { i < net.now.job.counts.segments }
    requires tally { Tally (net_by net.now.job.counts net.now.job.bytes.now) net.now.sizing.now branches_of (suc i) part }
    ensures { Hanging (net_by net.now.job.counts net.now.job.bytes.now) net.now.sizing.now i result }
{
    match seats[i] {
        Some(r) => parts::repeated(net, usize::from(r), part).part,
        None => part,
    }
}

// Segment i and all below it; `part` is the branches at its far end.
fn branch(net: &WeighedJob<'_, '_, '_>, seats: &[Option<u8>; 64], i: usize, part: Part) -> Part
    requires seated { Seated (net_by net.now.sized.job.counts net.now.sized.job.bytes.now) seats.now }
    requires i_lt_segments { i < net.now.sized.job.counts.segments }
    requires tally { Tally (net_by net.now.sized.job.counts net.now.sized.job.bytes.now) net.now.sized.sizing.now branches_of (suc i) part }
    ensures { Tally (net_by net.now.sized.job.counts net.now.sized.job.bytes.now) net.now.sized.sizing.now branch_of i result }
{
    let hangs = hanging(&net.sized, seats, i, part);
    parts::sized(net, i).behind(hangs)
}

// The branches at all nodes. Each branch joins those at the node that its segment hangs at. The table is lent, because one that is returned is copied.
pub fn count_up(net: &WeighedJob<'_, '_, '_>, seats: &[Option<u8>; 64], nodes: &mut [Part; 65])
    requires { Seated (net_by net.now.sized.job.counts net.now.sized.job.bytes.now) seats.now }
    ensures { Counted (net_by net.now.sized.job.counts net.now.sized.job.bytes.now) net.now.sized.sizing.now nodes.new }
{
    *nodes = [parts::NOTHING; 65];
    for i in (0..net.sized.job.counts.segments).rev() {
        let one = branch(net, seats, i, nodes[i + 1]);
        let q = net.sized.job.parent(i);
        nodes[q] = nodes[q] + one;
    }
}
