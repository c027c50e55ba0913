// The weights of the places, by position: of a wire that of the sinks at or below its far end, of a driver twice that of the sinks that it drives.
#![tactic(auto)]

ghost use Rattle.std.specs.Prelude.{◌≡◌, ◌<◌, ◌≤◌};
ghost use Rattle.net.specs.Job.{places_by};
ghost use Rattle.net.specs.Checked.{SinkWeights};
ghost use Rattle.place.specs.ByCounts.{Weighed};
ghost use Rattle.weights.specs.Sinks.{SinkWeight, doubled};

use job::Job;
use positions::Arranged;

// The weight of the sink at the far end of place p; `sinks` has the weights of the segments' sinks.
fn sink_weight(job: &Job<'_>, sinks: &[u8; 64], p: usize) -> u64
    requires sink_weights { SinkWeights job.now.counts job.now.bytes.now sinks.now }
    requires p_bound { p < places_by job.now.counts }
    ensures { SinkWeight job.now.counts job.now.bytes.now p result }
{
    if job.is_driver(p) {
        return 0;
    }
    u64::from(sinks[p - job.counts.stages])
}

// The weight of place p, where that of the sinks that it drives is `driven`.
fn own_weight(job: &Job<'_>, p: usize, driven: u64) -> u64
    requires { driven ≤ 16575 }
    ensures { result ≡ doubled job.now.counts p driven }
{
    if job.is_driver(p) {
        return 2 * driven;
    }
    driven
}

// The weights of the places, found in one pass from the last position to the first, in a lent table, whatever it held before.
#[tactic(auto, using(place::proofs::Steps::place_few, place::proofs::Steps::node_few))]
pub fn weigh(arranged: &Arranged<'_>, sinks: &[u8; 64], weights: &mut [u64; 76])
    requires { SinkWeights arranged.now.job.counts arranged.now.job.bytes.now sinks.now }
    ensures { Weighed arranged.now.job.counts arranged.now.job.bytes.now weights.new }
{
    // by node
    let mut gathered = [0; 77];
    for t in (0..arranged.job.places()).rev() {
        let p = arranged.order[t];
        let driven = sink_weight(&arranged.job, sinks, p) + gathered[t + 1];
        weights[t] = own_weight(&arranged.job, p, driven);
        gathered[arranged.hangs[t]] += driven;
    }
}
