// What the walk over the tree reads.
ghost use Rattle.net.specs.Net.{net_by};
ghost use Rattle.links.specs.Links.{LinkedBy};
ghost use Rattle.parts.specs.Seats.{Seated};
ghost use Rattle.elmore.specs.Tables.{SizedTo};

use links::Links;
use parts::{Part, Segment};
use stages::SizedJob;

// The tables of a sized job, which a walk over its tree reads in place of the job: by segment what it has at its width, and which repeater sits at its
// far end; by repeater what hangs at its segment, as far as it is counted up.
#[derive(Drop)]
pub struct Walk<'j, 's, 'w> {
    pub net: &'w SizedJob<'j, 's>,
    pub links: &'w Links,
    pub segments: &'w [Segment; 64],
    pub seats: &'w [Option<u8>; 64],
    pub parts: [Part; 8],
    ghost linked: { LinkedBy net.now.job.counts net.now.job.bytes.now links.now.first links.now.next },
    ghost sized: { SizedTo (net_by net.now.job.counts net.now.job.bytes.now) net.now.sizing.now net.now.job.counts.segments segments.now },
    ghost seated: { Seated (net_by net.now.job.counts net.now.job.bytes.now) seats.now },
}
