// measure, refine and choose: three of the four operations, total on every input.
#![tactic(auto)]

ghost use Rattle.std.specs.Prelude.{◌≡◌, true, false};
ghost use Rattle.net.specs.Answers.{measured, refined, chosen};
ghost use Rattle.operations.specs.Outcomes.{measured_by, refined_by, Preferred, from_second};

use best::EndsAndDelay;
use links::Links;
use refusal::{Refusal, require};
use stages::{DelayAndLoad, SizedJob, WeighedJob};

// Which of two sizings choose hands back, and how many bytes of it.
#[derive(Clone, Copy)]
pub enum Preference {
    First(usize),
    Second(usize),
}

// The scaled delay and the load figure of a sizing, or the first question that fails.
pub fn measure(job: &[u8], sizing: &[u8]) -> Result<DelayAndLoad, Refusal>
    ensures { measured_by result ≡ measured job.now sizing.now }
{
    let mut links = Links::new();
    let mut weights = [0u8; 64];
    let checked = questions::check(job, &mut links.first, &mut links.next, &mut weights)?.job;
    allowed::check_sizing(&checked, sizing)?;
    let net = WeighedJob {
        sized: SizedJob {
            job: checked,
            sizing,
        },
        weights: &weights,
    };
    Ok(elmore::figures(&net, &links))
}

// The best indices at a place, the rest of the sizing held, and the scaled delay that they reach, or the first question that fails.
pub fn refine(job: &[u8], sizing: &[u8], place: usize) -> Result<EndsAndDelay, Refusal>
    ensures { refined_by result ≡ refined job.now sizing.now place }
{
    let mut links = Links::new();
    let mut weights = [0u8; 64];
    let job = questions::check(job, &mut links.first, &mut links.next, &mut weights)?.job;
    allowed::check_sizing(&job, sizing)?;
    let places = job.places();
    require(place < places, Refusal::Place)?;
    let net = WeighedJob {
        sized: SizedJob {
            job,
            sizing: &sizing[..places],
        },
        weights: &weights,
    };
    Ok(best::refine_at(&net, place))
}

// The one of two sizings that has the smaller delay, at a tie the first, and its P; none where choose refuses.
pub fn prefer(job: &[u8], x: &[u8], y: &[u8]) -> Option<Preference>
    ensures { Preferred job.now x.now y.now result }
{
    let mut links = Links::new();
    let mut weights = [0u8; 64];
    let job = questions::check(job, &mut links.first, &mut links.next, &mut weights)
        .ok()?
        .job;
    allowed::check_sizing(&job, x).ok()?;
    allowed::check_sizing(&job, y).ok()?;
    let places = job.places();
    let first = WeighedJob {
        sized: SizedJob { job, sizing: x },
        weights: &weights,
    };
    let second = WeighedJob {
        sized: SizedJob { job, sizing: y },
        weights: &weights,
    };
    if elmore::delay(&first, &links) <= elmore::delay(&second, &links) {
        return Some(Preference::First(places));
    }
    Some(Preference::Second(places))
}

// The first P bytes of the one of two sizings that has the smaller delay, as a part of the caller's own slice; at a tie of the first.
pub fn choose<'a>(job: &[u8], x: &'a [u8], y: &'a [u8]) -> &'a [u8]
    ensures answer { result.now ≡ chosen job.now x.now y.now }
    ensures second { from_second job.now x.now y.now ≡ true → result.ref_ptr ≡ y.entry.ref_ptr }
    ensures first { from_second job.now x.now y.now ≡ false → result.ref_ptr ≡ x.entry.ref_ptr }
{
    match prefer(job, x, y) {
        Some(Preference::First(places)) => &x[..places],
        Some(Preference::Second(places)) => &y[..places],
        None => &x[..0],
    }
}
