// The records of a job, once they are counted by kind.
ghost use Rattle.std.specs.Prelude.{◌≡◌, ◌+◌, ◌-◌};
ghost use Rattle.net.specs.Job.{places_by, widths_of};
ghost use Rattle.net.specs.Checked.{Held, WeightsHeld};
ghost use Rattle.job.specs.RunOf.{RunOf};
ghost use Rattle.job.specs.Runs.{HasRun};

use super::{Run, widths_of};
use net::Counts;

// A job whose records are counted by kind, but for its weight records.
#[derive(Clone, Copy)]
pub struct Records<'a> {
    pub bytes: &'a [u8],
    pub counts: Counts,
    ghost held: { Held counts bytes.now },
}

// The same with the count of the weight records, which stand behind the others.
#[derive(Clone, Copy)]
pub struct AllRecords<'a> {
    pub records: Records<'a>,
    pub weights: usize,
    ghost weights_held: { WeightsHeld records.counts records.bytes.now weights },
}

impl<'a> Records<'a> {
    // The run of so many records from a start on.
    fn run(&self, start: usize, count: usize) -> Run<'a>
        requires { HasRun self.now.bytes.now start count }
        ensures { RunOf self.now.bytes.now start count result }
    {
        Run {
            bytes: self.bytes,
            start,
            count,
        }
    }

    pub fn widths(&self) -> Run<'a>
        ensures { RunOf self.now.bytes.now 0 self.now.counts.widths result }
    {
        self.run(0, self.counts.widths)
    }

    // The widths of layer 0.
    pub fn layer0(&self) -> Run<'a>
        ensures { RunOf self.now.bytes.now 0 self.now.counts.layer0 result }
    {
        self.run(0, self.counts.layer0)
    }

    // The widths of layer 1.
    pub fn layer1(&self) -> Run<'a>
        ensures { RunOf self.now.bytes.now self.now.counts.layer0 (self.now.counts.widths - self.now.counts.layer0) result }
    {
        self.run(self.counts.layer0, self.counts.widths - self.counts.layer0)
    }

    // How many widths a layer has.
    pub fn widths_of(&self, layer: usize) -> usize
        ensures { result ≡ widths_of self.now.counts layer }
    {
        widths_of(self.counts, layer)
    }

    pub fn sizes(&self) -> Run<'a>
        ensures { RunOf self.now.bytes.now self.now.counts.widths self.now.counts.sizes result }
    {
        self.run(self.counts.widths, self.counts.sizes)
    }

    pub fn stages(&self) -> Run<'a>
        ensures { RunOf self.now.bytes.now (self.now.counts.widths + self.now.counts.sizes) self.now.counts.stages result }
    {
        self.run(self.counts.widths + self.counts.sizes, self.counts.stages)
    }

    pub fn segments(&self) -> Run<'a>
        ensures { RunOf self.now.bytes.now (self.now.counts.widths + self.now.counts.sizes + self.now.counts.stages) self.now.counts.segments result }
    {
        self.run(
            self.counts.widths + self.counts.sizes + self.counts.stages,
            self.counts.segments,
        )
    }

    pub fn repeaters(&self) -> Run<'a>
        ensures { RunOf self.now.bytes.now (self.now.counts.widths + self.now.counts.sizes + (self.now.counts.stages + self.now.counts.segments)) self.now.counts.repeaters result }
    {
        self.run(
            self.counts.widths + self.counts.sizes + (self.counts.stages + self.counts.segments),
            self.counts.repeaters,
        )
    }

    // How many places there are.
    pub fn places(&self) -> usize
        ensures { result ≡ places_by self.now.counts }
    {
        self.counts.stages + self.counts.segments + self.counts.repeaters
    }

    // Where among all records the weight records start.
    fn first_weight(&self) -> usize
        ensures { result ≡ self.now.counts.widths + self.now.counts.sizes + places_by self.now.counts }
    {
        self.counts.widths + self.counts.sizes + self.places()
    }
}

impl<'a> AllRecords<'a> {
    pub fn weights(&self) -> Run<'a>
        ensures { RunOf self.now.records.bytes.now (self.now.records.counts.widths + self.now.records.counts.sizes + places_by self.now.records.counts) self.now.weights result }
    {
        self.records.run(self.records.first_weight(), self.weights)
    }
}
