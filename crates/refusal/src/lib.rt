// Why a call is refused: the question of a job, of a sizing or of a place whose answer is no. C is told its number.
#![tactic(auto)]

ghost use Rattle.std.specs.Prelude.{◌≡◌, ◌≤◌, cond};
ghost use Rattle.refusal.specs.Numbers.{number_of, refusal_number};

// The questions of a job, of a sizing and of a place, each by what it asks, with its number.
#[derive(Clone, Copy, PartialEq, Eq, Debug)]
pub enum Refusal {
    Length = 1,
    Kinds = 2,
    Counts = 3,
    Numbers = 4,
    UnnamedBytes = 5,
    Values = 6,
    Tables = 7,
    StageRanges = 8,
    Parents = 9,
    SegmentFields = 10,
    OpenEnds = 11,
    SizingLength = 15,
    Indices = 16,
    Place = 17,
    WeightRecords = 20,
    Fractions = 21,
    RepeaterSites = 22,
    RepeaterRanges = 23,
    Layers = 24,
}

impl Refusal {
    // The number of the question, which is never the 0 of an answer.
    pub fn number(self) -> usize
        ensures number { result ≡ number_of self }
        ensures above_zero { 1 ≤ result }
    {
        self as usize
    }
}

// Goes on where a question is passed, and is refused where it is not.
pub fn require(passed: bool, refusal: Refusal) -> Result<(), Refusal>
    ensures { refusal_number result ≡ cond passed 0 (number_of refusal) }
{
    if passed { Ok(()) } else { Err(refusal) }
}
