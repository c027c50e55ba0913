// The best indices at one place, the rest of the sizing held: both ends of the tie, in one pass over the indices.
#![tactic(auto)]

ghost use Rattle.net.specs.Order.{placed_by};
ghost use Rattle.refine.specs.Settled.{SettleInLimits, Settled};

use job::Job;
use place::Spot;
use quantity::{Capacitance, Delay, Resistance};

// The ends of a tie: the smallest and the largest best index, and what either costs.
#[derive(Clone, Copy)]
pub struct Ends {
    pub lowest: u8,
    pub highest: u8,
    pub cost: Delay,
}

// The ends of the tie at a place, by its weight, the resistance upstream of it and the load that it drives. These stay as they are whatever its
// index, so what an index costs tells which are best, and no delay of the whole net is needed.
pub fn settle(
    job: &Job<'_>,
    weight: u64,
    upstream: Resistance,
    place: usize,
    driven: Capacitance,
) -> Ends
    requires { SettleInLimits job.now.counts weight upstream.0 place driven.0 }
    ensures { Settled (placed_by job.now.counts job.now.bytes.now) weight upstream.0 place driven.0 result }
{
    let spot = Spot::new(job, weight, upstream, place);
    let range = job.range(place);
    let mut ends = Ends {
        lowest: range.lowest,
        highest: range.lowest,
        cost: spot.step(job, usize::from(range.lowest), driven).delay,
    };
    for k in range.lowest + 1..range.highest + 1 {
        let cost = spot.step(job, usize::from(k), driven).delay;
        if cost < ends.cost {
            ends = Ends {
                lowest: k,
                highest: k,
                cost,
            };
        } else if cost == ends.cost {
            ends.highest = k;
        }
    }
    ends
}
