// The search between the bounds, free place after free place, from the last position to the first; a place is free where the bounds leave it more
// than one index. Tables and sizings go by position.
#![tactic(auto)]

ghost use Rattle.std.specs.Prelude.{◌≡◌};
ghost use Rattle.net.specs.Checked.{ForPlaces};
ghost use Rattle.place.specs.ByCounts.{fixed_delay};
ghost use Rattle.envelope.specs.Kept.{found_of, SameSpace};
ghost use Rattle.free.specs.Searching.{Between, taken_between};
ghost use Rattle.free.specs.ByTables.{IsBefore, HasMore, SearchedFrom};

use envelope::Kept;
use free::SearchTables;
use place::Places;
use positions::Bounds;
use quantity::{Capacitance, Delay, Resistance};

// Takes every sizing that has the indices of x from `left` on and lies between the bounds before it, where the place before `left` is free and
// not the last one that is. The loads of the free places from `left` on, each at the node where it arrives, and the delay so far are carried along.
fn search(
    tables: &SearchTables<'_, '_, '_, '_>,
    left: usize,
    added: Delay,
    x: &mut [u8],
    gathered: &mut [Capacitance; 77],
    kept: &mut Kept<'_>,
)
    requires before { IsBefore tables.now left added.0 x.old gathered.old kept.old }
    requires more { HasMore tables.now left }
    ensures same_space { SameSpace kept.old kept.new }
    ensures searched { SearchedFrom tables.now left x.old gathered.old kept.old x.new gathered.new kept.new }
{
    let t = left - 1;
    let here = tables.free_place(t);
    let rest = tables.skips[t];
    let next = rest - 1;
    // the next free place, as it is whatever the index here
    let then = tables.free_place(next);
    let further = tables.skips[next];
    let job = &tables.job;
    let load = here.driven + gathered[left];
    let node = tables.ups[t];
    let others = gathered[node];
    for k in here.range.lowest..here.range.highest + 1 {
        let step = here.spot.step(job, usize::from(k), load);
        let reached = added + step.delay;
        x[t] = k;
        gathered[node] = others + step.load;
        if further == 0 {
            let drives = then.driven + gathered[rest];
            if let Some(first) = then.pass_over(job, drives, reached, kept.least) {
                tables.take_from(rest, first, reached, x, gathered, kept);
            }
        } else {
            search(tables, rest, reached, x, gathered, kept);
        }
    }
    gathered[node] = others;
}

// Takes every sizing between the bounds, where x is the lower bound and the held places add `fixed` to the delay.
fn start(tables: &SearchTables<'_, '_, '_, '_>, fixed: Delay, x: &mut [u8], kept: &mut Kept<'_>)
    requires held_add { fixed.0 ≡ fixed_delay tables.now.job.counts tables.now.job.bytes.now tables.now.bounds.lower.now tables.now.bounds.upper.now tables.now.driven.now }
    requires x_value { x.old ≡ tables.now.bounds.lower.now }
    requires for_places { ForPlaces tables.now.job.counts kept.old.lean.now × ForPlaces tables.now.job.counts kept.old.wide.now }
    ensures same_space { SameSpace kept.old kept.new }
    ensures taken { found_of kept.new
        ≡ taken_between tables.now.job.counts tables.now.job.bytes.now
        tables.now.bounds.lower.now tables.now.bounds.upper.now (found_of kept.old) }
{
    let left = tables.skips[tables.job.places()];
    if left == 0 {
        kept.keep(x, fixed);
        return;
    }
    // loads, by node
    let mut gathered = [Capacitance(0); 77];
    if tables.skips[left - 1] == 0 {
        let lowest = tables.bounds.lower[left - 1];
        tables.take_from(left, lowest, fixed, x, &gathered, kept);
    } else {
        search(tables, left, fixed, x, &mut gathered, kept);
    }
}

// Takes every sizing between two bounds, where x is the lower one.
pub fn between(places: &Places<'_, '_>, bounds: Bounds<'_>, x: &mut [u8], kept: &mut Kept<'_>)
    requires between { Between places.now.arranged.job.counts places.now.arranged.job.bytes.now bounds.lower.now bounds.upper.now }
    requires x_value { x.old ≡ bounds.lower.now }
    requires for_places { ForPlaces places.now.arranged.job.counts kept.old.lean.now × ForPlaces places.now.arranged.job.counts kept.old.wide.now }
    ensures same_space { SameSpace kept.old kept.new }
    ensures taken { found_of kept.new
        ≡ taken_between places.now.arranged.job.counts places.now.arranged.job.bytes.now
        bounds.entry.lower.now bounds.entry.upper.now (found_of kept.old) }
{
    let mut driven = [Capacitance(0); 76];
    let mut upstream = [Resistance(0); 76];
    let mut ups = [0; 76];
    let mut skips = [0; 77];
    let (tables, fixed) = SearchTables::new(
        places,
        bounds,
        &mut upstream,
        &mut driven,
        &mut ups,
        &mut skips,
    );
    start(&tables, fixed, x, kept);
}
