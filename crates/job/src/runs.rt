// A run of a job's records, of one kind.
ghost use Rattle.std.specs.Prelude.{◌≡◌, ◌^◌, ◌<◌, ◌≤◌};
ghost use Rattle.job.specs.Runs.{HasRun, byte_of, word_of};

use super::word_at;

// One run of a job's records: `count` of them, from the record `start` on.
#[derive(Clone, Copy)]
pub struct Run<'a> {
    pub bytes: &'a [u8],
    pub start: usize,
    pub count: usize,
    ghost there: { HasRun bytes.now start count },
}

impl Run<'_> {
    // The byte at `at` of the run's record k.
    pub fn byte(&self, k: usize, at: usize) -> usize
        requires { (k < self.now.count) × (at < 16) }
        ensures { (result ≡ byte_of self.now.bytes.now self.now.start at k) × (result < 256) }
    {
        usize::from(self.bytes[16 * (self.start + k) + at])
    }

    // The word at `at` of the run's record k.
    pub fn word(&self, k: usize, at: usize) -> usize
        requires { (k < self.now.count) × (at ≤ 12) }
        ensures { (result ≡ word_of self.now.bytes.now self.now.start at k) × (result < 2 ^ 32) }
    {
        word_at(self.bytes, 16 * (self.start + k) + at) as usize
    }
}
