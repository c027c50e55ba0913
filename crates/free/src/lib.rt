// The free places of a search, those that the bounds leave more than one index: where the load of each arrives, which of them comes before another, and
// the sizings that differ at the last of them alone. Tables and sizings go by position.
#![tactic(auto)]

ghost use Rattle.std.specs.Prelude.{◌≡◌, ◌<◌, ◌≤◌, IfSome};
ghost use Rattle.net.specs.Job.{places_by};
ghost use Rattle.job.specs.Tables.{TableOf};
ghost use Rattle.positions.specs.Arranged.{PlacesInOrder};
ghost use Rattle.place.specs.ByCounts.{StepInLimits};
ghost use Rattle.place.specs.Figures.{loads, resistances};
ghost use Rattle.envelope.specs.Kept.{SameSpace};
ghost use Rattle.free.specs.Searching.{FreePlaceAt, BothLong, AllFit, PassedBy, ReachedBy, first_of};
ghost use Rattle.free.specs.ByTables.{IsAt, IsBefore, IsLast, PassedAt, SearchedFrom};

mod prepared;

use envelope::Kept;
use job::{Job, Range};
use place::Spot;
use positions::Bounds;
pub use prepared::{SearchTables, lift, skip};
use quantity::{Capacitance, Delay, Resistance};

// A free place as the search tries its indices: what its steps need, the load of the held places that it drives, and the indices that the bounds
// leave it. All stays as it is whatever the indices of the free places.
#[derive(Clone, Copy)]
pub struct FreePlace {
    pub spot: Spot,
    pub driven: Capacitance,
    pub range: Range,
}

impl FreePlace {
    // The place at position t with what its steps need, as the tables have it, whether they are filled or not.
    pub fn new(
        job: &Job<'_>,
        order: &[usize; 76],
        weights: &[u64; 76],
        upstream: &[Resistance; 76],
        driven: &[Capacitance; 76],
        bounds: Bounds<'_>,
        t: usize,
    ) -> FreePlace
        requires places_in_order { PlacesInOrder job.now.counts job.now.bytes.now order.now }
        requires both_long { BothLong job.now.counts bounds.lower.now bounds.upper.now }
        requires t_bound { t < places_by job.now.counts }
        ensures { FreePlaceAt job.now.counts job.now.bytes.now order.now weights.now (resistances upstream.now) (loads driven.now) bounds.entry.lower.now bounds.entry.upper.now t result }
    {
        FreePlace {
            spot: Spot::new(job, weights[t], upstream[t], order[t]),
            driven: driven[t],
            range: Range {
                lowest: bounds.lower[t],
                highest: bounds.upper[t],
            },
        }
    }

    // The first index that gives a delay of at most `least`, where there is one. It writes nothing and is called at the last free place, so most
    // sizings of a search are passed over by it.
    pub fn pass_over(
        &self,
        job: &Job<'_>,
        load: Capacitance,
        added: Delay,
        least: Delay,
    ) -> Option<u8>
        requires table_of { TableOf job.now.counts job.now.bytes.now self.now.spot.place self.now.spot.table }
        requires step_in_limits { StepInLimits job.now.counts job.now.bytes.now self.now.spot.weight self.now.spot.before.0 self.now.spot.place self.now.range.highest load.0 }
        requires low_le_top { (self.now.range.lowest ≤ self.now.range.highest) × (self.now.range.highest < 16) }
        requires all_fit { AllFit job.now.counts job.now.bytes.now self.now.spot.weight self.now.spot.before.0 self.now.spot.place load.0 added.0 self.now.range.lowest self.now.range.highest }
        ensures passed { PassedBy job.now.counts job.now.bytes.now self.now.spot.weight self.now.spot.before.0 self.now.spot.place load.0 added.0 least.0 self.now.range.lowest self.now.range.highest (first_of self.now.range.highest result) }
        ensures reached { IfSome result (λ k. ReachedBy job.now.counts job.now.bytes.now self.now.spot.weight self.now.spot.before.0 self.now.spot.place load.0 added.0 least.0 self.now.range.highest k) }
    {
        for k in self.range.lowest..=self.range.highest {
            let step = self.spot.step(job, usize::from(k), load);
            if added + step.delay <= least {
                return Some(k);
            }
        }
        None
    }
}

impl SearchTables<'_, '_, '_, '_> {
    // The place at position t with what its steps need, read once for all of them.
    pub fn free_place(&self, t: usize) -> FreePlace
        requires { t < places_by self.now.job.counts }
        ensures { IsAt self.now t result }
    {
        FreePlace::new(
            &self.job,
            self.order,
            self.weights,
            self.upstream,
            self.driven,
            self.bounds,
            t,
        )
    }

    // Takes every sizing that has the indices of x but at the place before `left`, the last one that is free; those before the index `start` there
    // have a larger delay than the least.
    pub fn take_from(
        &self,
        left: usize,
        start: u8,
        added: Delay,
        x: &mut [u8],
        gathered: &[Capacitance; 77],
        kept: &mut Kept<'_>,
    )
        requires before { IsBefore self.now left added.0 x.old gathered.now kept.old }
        requires last { IsLast self.now left }
        requires passed_at { PassedAt self.now left added.0 gathered.now kept.old.least.0 start }
        ensures same_space { SameSpace kept.old kept.new }
        ensures searched { SearchedFrom self.now left x.old gathered.now kept.old x.new gathered.now kept.new }
    {
        let t = left - 1;
        let here = self.free_place(t);
        let job = &self.job;
        let load = here.driven + gathered[left];
        for k in start..=here.range.highest {
            let step = here.spot.step(job, usize::from(k), load);
            let reached = added + step.delay;
            if reached <= kept.least {
                x[t] = k;
                kept.keep(x, reached);
            }
        }
    }
}
