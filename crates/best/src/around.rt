// What surrounds a place is read from this.
ghost use Rattle.net.specs.Net.{net_by};
ghost use Rattle.net.specs.Checked.{AllowedBy, SinkWeights};
ghost use Rattle.parts.specs.Seats.{Seated};
ghost use Rattle.nodes.specs.Counted.{Counted};

use parts::Part;
use stages::SizedJob;

// A job with an allowed sizing of it and the weights of its sinks, which repeater sits at the far end of each segment, and the branches at each node.
#[derive(Clone, Copy)]
pub struct Tree<'j, 's, 't> {
    pub net: &'t SizedJob<'j, 's>,
    pub weights: &'t [u8; 64],
    pub seats: &'t [Option<u8>; 64],
    pub nodes: &'t [Part; 65],
    ghost allowed: { AllowedBy net.now.job.counts net.now.job.bytes.now net.now.sizing.now },
    ghost weighed: { SinkWeights net.now.job.counts net.now.job.bytes.now weights.now },
    ghost seated: { Seated (net_by net.now.job.counts net.now.job.bytes.now) seats.now },
    ghost counted: { Counted (net_by net.now.job.counts net.now.job.bytes.now) net.now.sizing.now nodes.now },
}
