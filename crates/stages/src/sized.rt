// A net with a sizing of it: what the delay is computed from.
ghost use Rattle.net.specs.Checked.{SinkWeights};
ghost use Rattle.stages.specs.Ready.{Ready};

use job::Job;

// A job, and a sizing of it that has at each place an index in the place's range.
#[derive(Clone, Copy)]
pub struct SizedJob<'j, 's> {
    pub job: Job<'j>,
    pub sizing: &'s [u8],
    ghost ready: { Ready job.counts job.bytes.now sizing.now },
}

// A sized job with the weights of its sinks. It stands apart, because drivers and repeaters are reckoned without them.
#[derive(Clone, Copy)]
pub struct WeighedJob<'j, 's, 'w> {
    pub sized: SizedJob<'j, 's>,
    pub weights: &'w [u8; 64],
    ghost weighed: { SinkWeights sized.job.counts sized.job.bytes.now weights.now },
}
