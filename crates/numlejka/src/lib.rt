// The C interface: each operation returns its number and answers through the parameters that the caller lends.
#![tactic(auto)]

ghost use Rattle.std.specs.Prelude.{◌≡◌, length};
ghost use Rattle.net.specs.Answers.{measured, refined, size_number, size_buffer};
ghost use Rattle.net.specs.Promises.{Promises};
ghost use Rattle.numlejka.specs.Results.{answered, chosen_slice};

use operations::Preference;

// The scaled delay and the load figure of a sizing, written where the number is 0.
#[unsafe(no_mangle)]
pub extern "C" fn numlejka_measure(
    job: &[u8],
    sizing: &[u8],
    delay: &mut u64,
    load: &mut u64,
) -> usize
    ensures number { result ≡ (measured job.now sizing.now).number }
    ensures delay { delay.new
        ≡ answered result (measured job.now sizing.now).delay delay.old }
    ensures load { load.new
        ≡ answered result (measured job.now sizing.now).load load.old }
{
    match operations::measure(job, sizing) {
        Ok(figures) => {
            *delay = figures.delay.0;
            *load = figures.load.0;
            0
        }
        Err(refusal) => refusal.number(),
    }
}

// The smallest and the largest best index at a place, the rest of the sizing held, and the scaled delay that either reaches, written where the
// number is 0.
#[unsafe(no_mangle)]
pub extern "C" fn numlejka_refine(
    job: &[u8],
    sizing: &[u8],
    place: usize,
    lowest: &mut u8,
    highest: &mut u8,
    delay: &mut u64,
) -> usize
    ensures number { result ≡ (refined job.now sizing.now place).number }
    ensures lowest { lowest.new
        ≡ answered result (refined job.now sizing.now place).lowest lowest.old }
    ensures highest { highest.new
        ≡ answered result (refined job.now sizing.now place).highest highest.old }
    ensures delay { delay.new
        ≡ answered result (refined job.now sizing.now place).delay delay.old }
{
    match operations::refine(job, sizing, place) {
        Ok(best) => {
            *lowest = best.lowest;
            *highest = best.highest;
            *delay = best.delay.0;
            0
        }
        Err(question) => question.number(),
    }
}

// Which of two sizings has the smaller delay: 1 the first, also at a tie, 2 the second, 0 where choose refuses.
#[unsafe(no_mangle)]
pub extern "C" fn numlejka_choose(job: &[u8], x: &[u8], y: &[u8]) -> usize
    ensures { result ≡ chosen_slice job.now x.now y.now }
{
    match operations::prefer(job, x, y) {
        Some(Preference::First(_)) => 1,
        Some(Preference::Second(_)) => 2,
        None => 0,
    }
}

// Writes the reply of a job into the buffer, for the numbers 0 and 14; every other number leaves the buffer as it was.
#[unsafe(no_mangle)]
pub extern "C" fn numlejka_size(job: &[u8], reply: &mut [u8]) -> usize
    ensures number { result ≡ size_number job.now (length reply.old) }
    ensures buffer { reply.new ≡ size_buffer job.now reply.old }
    ensures promises { Promises job.now reply.old result reply.new }
{
    match size::size(job, reply) {
        Ok(answer) => answer.number(),
        Err(failed) => failed.number(),
    }
}
