// What a driver, and the chain of stages, contributes to the delay of every sink, and what it charges.
#![tactic(auto)]

ghost use Rattle.std.specs.Prelude.{◌≡◌, ◌<◌, ◌≤◌};
ghost use Rattle.net.specs.Net.{net_by};
ghost use Rattle.net.specs.Delay.{branches_load, stage_load};
ghost use Rattle.stages.specs.Charges.{DriverOf, StageOf, StagesOf};

mod sized;

use job::Job;
use quantity::{Capacitance, Delay};
pub use sized::{SizedJob, WeighedJob};

// Of a sizing its scaled delay and its load figure; of a driver, or of all stages, what is contributed to every sink behind and what is charged.
#[derive(Clone, Copy)]
pub struct DelayAndLoad {
    pub delay: Delay,
    pub load: Capacitance,
}

// What a driver of the size k contributes to every sink behind it, and what it charges: its own output and the load that it drives.
pub fn driver(job: &Job<'_>, k: usize, load: Capacitance) -> DelayAndLoad
    requires { (k < job.now.counts.sizes) × (load.0 ≤ 13600000) }
    ensures { DriverOf (net_by job.now.counts job.now.bytes.now) k load.0 result }
{
    let charge = job.output(k) + load;
    DelayAndLoad {
        delay: job.driver_resistance(k).charging(charge),
        load: charge,
    }
}

// What stage s drives, where the load of the whole tree is known.
pub fn stage_load(net: &SizedJob<'_, '_>, tree: Capacitance, s: usize) -> Capacitance
    requires tree_value { tree.0 ≡ branches_load (net_by net.now.job.counts net.now.job.bytes.now) net.now.sizing.now 0 }
    requires s_lt_stages { s < net.now.job.counts.stages }
    ensures { result.0 ≡ stage_load (net_by net.now.job.counts net.now.job.bytes.now) net.now.sizing.now s }
{
    if s + 1 == net.job.counts.stages {
        return tree;
    }
    net.job.gate(usize::from(net.sizing[s + 1]))
}

// What stage s contributes to every sink, and what it charges.
fn stage(net: &SizedJob<'_, '_>, tree: Capacitance, s: usize) -> DelayAndLoad
    requires tree_value { tree.0 ≡ branches_load (net_by net.now.job.counts net.now.job.bytes.now) net.now.sizing.now 0 }
    requires s_lt_stages { s < net.now.job.counts.stages }
    ensures { StageOf (net_by net.now.job.counts net.now.job.bytes.now) net.now.sizing.now s result }
{
    let driven = stage_load(net, tree, s);
    driver(&net.job, usize::from(net.sizing[s]), driven)
}

// What all stages contribute to every sink, and what they charge, in one pass.
pub fn stages(net: &SizedJob<'_, '_>, tree: Capacitance) -> DelayAndLoad
    requires { tree.0 ≡ branches_load (net_by net.now.job.counts net.now.job.bytes.now) net.now.sizing.now 0 }
    ensures { StagesOf (net_by net.now.job.counts net.now.job.bytes.now) net.now.sizing.now result }
{
    let mut delay = Delay(0);
    let mut load = Capacitance(0);
    for s in 0..net.job.counts.stages {
        let one = stage(net, tree, s);
        delay = delay + one.delay;
        load = load + one.load;
    }
    DelayAndLoad { delay, load }
}
