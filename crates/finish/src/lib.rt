// The finished reply: the search between the bounds finds the least delay, lean and wide, and they are written. Bounds and sizings go by position.
#![tactic(auto)]

ghost use Rattle.std.specs.Prelude.{◌≡◌, suc, ◌*◌, ◌≤◌, length};
ghost use Rattle.net.specs.Job.{places_by};
ghost use Rattle.net.specs.Checked.{ForPlaces};
ghost use Rattle.positions.specs.Arranged.{PositionsOf};
ghost use Rattle.finish.specs.Parts.{BoundedBy, LeastBy, buffer_by};

use envelope::Kept;
use place::Places;
use positions::Bounds;
use quantity::Delay;

// The least delay, lean and wide, by the search between the bounds; x is its working space.
fn least(
    places: &Places<'_, '_>,
    bounds: Bounds<'_>,
    x: &mut [u8],
    lean: &mut [u8],
    wide: &mut [u8],
) -> Delay
    requires bounded_by { BoundedBy places.now.arranged.job.counts places.now.arranged.job.bytes.now bounds.lower.now bounds.upper.now }
    requires for_places { ForPlaces places.now.arranged.job.counts x.old × ForPlaces places.now.arranged.job.counts lean.old × ForPlaces places.now.arranged.job.counts wide.old }
    ensures { LeastBy places.now.arranged.job.counts places.now.arranged.job.bytes.now result.0 lean.new wide.new }
{
    x.copy_from_slice(bounds.lower);
    // more than any delay
    let mut kept = Kept {
        least: Delay(9223372036854775808),
        lean,
        wide,
    };
    search::between(places, bounds, x, &mut kept);
    kept.least
}

// Finds the least delay, lean and wide in lent working space, and writes the finished reply.
fn find_and_write(
    places: &Places<'_, '_>,
    position: &[usize; 76],
    bounds: Bounds<'_>,
    x: &mut [u8],
    lean: &mut [u8],
    wide: &mut [u8],
    reply: &mut [u8],
)
    requires positions_of { PositionsOf places.now.arranged.job.counts places.now.arranged.job.bytes.now position.now }
    requires bounded_by { BoundedBy places.now.arranged.job.counts places.now.arranged.job.bytes.now bounds.lower.now bounds.upper.now }
    requires for_places { ForPlaces places.now.arranged.job.counts x.old × ForPlaces places.now.arranged.job.counts lean.old × ForPlaces places.now.arranged.job.counts wide.old }
    requires counts_in_bounds { 8 * suc (places_by places.now.arranged.job.counts) ≤ length reply.old }
    ensures { reply.new ≡ buffer_by places.now.arranged.job.counts places.now.arranged.job.bytes.now 0 reply.old }
{
    let delay = least(places, bounds, x, lean, wide);
    let envelope = Bounds {
        lower: lean,
        upper: wide,
    };
    reply::finished(reply, position, delay, bounds, envelope);
}

// Writes the finished reply.
pub fn finish(places: &Places<'_, '_>, position: &[usize; 76], bounds: Bounds<'_>, reply: &mut [u8])
    requires positions_of { PositionsOf places.now.arranged.job.counts places.now.arranged.job.bytes.now position.now }
    requires bounded_by { BoundedBy places.now.arranged.job.counts places.now.arranged.job.bytes.now bounds.lower.now bounds.upper.now }
    requires counts_in_bounds { 8 * suc (places_by places.now.arranged.job.counts) ≤ length reply.old }
    ensures { reply.new ≡ buffer_by places.now.arranged.job.counts places.now.arranged.job.bytes.now 0 reply.old }
{
    let n = places.arranged.job.places();
    let mut x = [0; 76];
    let mut lean = [0; 76];
    let mut wide = [0; 76];
    find_and_write(
        places,
        position,
        bounds,
        &mut x[..n],
        &mut lean[..n],
        &mut wide[..n],
        reply,
    );
}
