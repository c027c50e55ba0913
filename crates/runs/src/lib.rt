// Tests of each record of a run. A test that fails ends its loop.
#![tactic(auto)]

ghost use Rattle.std.specs.Prelude.{◌≡◌, ◌&&◌, ◌+◌, ◌*◌, ◌-◌, ◌<◌, ◌≤◌, length, List, ℕ};
ghost use Rattle.lattice.specs.Lists.{every};
ghost use Rattle.net.specs.Questions.{in_range};
ghost use Rattle.job.specs.Runs.{byte_of, word_of};
ghost use Rattle.runs.specs.Records.{byte_in_order, byte_rises, number_in_order, zero_from, zero_bytes, byte_within, rows_in_order, range_within};

use job::Run;

// Where in a record a field stands, and how it is read.
pub trait Field: Copy {
    ghost inside: { Self → Type 0 };

    ghost value: { Self → List ℕ → ℕ → ℕ → ℕ };

    // The field of the run's record k.
    fn read(self, run: &Run<'_>, k: usize) -> usize
        requires { (k < run.now.count) × inside self }
        ensures { result ≡ value self run.now.bytes.now run.now.start k };
}

// The byte at an offset.
#[derive(Clone, Copy)]
pub struct Byte(pub usize);

// The word at an offset.
#[derive(Clone, Copy)]
pub struct Word(pub usize);

impl Field for Byte {
    ghost inside = { λ f. f.0 < 16 };

    ghost value = { λ f b start k. byte_of b start f.0 k };

    fn read(self, run: &Run<'_>, k: usize) -> usize {
        run.byte(k, self.0)
    }
}

impl Field for Word {
    ghost inside = { λ f. f.0 ≤ 12 };

    ghost value = { λ f b start k. word_of b start f.0 k };

    fn read(self, run: &Run<'_>, k: usize) -> usize {
        run.word(k, self.0)
    }
}

// Is a field of each record from least to most?
pub fn within<F: Field>(run: &Run<'_>, field: F, least: usize, most: usize) -> bool
    requires { F.inside field }
    ensures { result ≡ every run.now.count (λ k. in_range least most (F.value field run.now.bytes.now run.now.start k)) }
{
    (0..run.count).all(|k| {
        let value = field.read(run, k);
        (least <= value) & (value <= most)
    })
}

// Is the byte at `at` of each record from `least` to `most`, and does it fall nowhere from one to the next?
pub fn bytes_in_order(run: &Run<'_>, at: usize, least: usize, most: usize) -> bool
    requires { at < 16 }
    ensures { result ≡ every run.now.count (byte_within run.now.bytes.now run.now.start at least most) && every (run.now.count - 1) (byte_in_order run.now.bytes.now run.now.start at) }
{
    (0..run.count).all(|k| {
        let value = run.byte(k, at);
        // the first byte is compared with itself
        let in_order = run.byte(k.saturating_sub(1), at) <= value;
        in_order & (least <= value) & (value <= most)
    })
}

// Does the byte at `at` strictly rise from each record to the next?
pub fn bytes_rise(run: &Run<'_>, at: usize) -> bool
    requires { at < 16 }
    ensures { result ≡ every (run.now.count - 1) (byte_rises run.now.bytes.now run.now.start at) }
{
    let pairs = run.count.saturating_sub(1);
    (0..pairs).all(|k| run.byte(k, at) < run.byte(k + 1, at))
}

// Do the numbers of the records count from 0?
pub fn numbers_in_order(run: &Run<'_>) -> bool
    ensures { result ≡ every run.now.count (number_in_order run.now.bytes.now run.now.start) }
{
    (0..run.count).all(|k| run.byte(k, 1) == k)
}

// Are the n bytes from p on zero?
fn zero_from(bytes: &[u8], p: usize, n: usize) -> bool
    requires { p + n ≤ length bytes.now }
    ensures { result ≡ zero_from bytes.now p n }
{
    bytes[p..p + n].iter().all(|byte| *byte == 0)
}

// Are n bytes from `at` on zero in each record?
pub fn bytes_zero(run: &Run<'_>, at: usize, n: usize) -> bool
    requires { at + n ≤ 16 }
    ensures { result ≡ every run.now.count (zero_bytes run.now.bytes.now run.now.start at n) }
{
    (0..run.count).all(|k| zero_from(run.bytes, 16 * (run.start + k) + at, n))
}

// Does resistance strictly fall and capacitance strictly rise along a table? Widths and driver sizes have them at the same offsets: a driver size
// has its gate's.
pub fn table_in_order(run: &Run<'_>) -> bool
    ensures { result ≡ every (run.now.count - 1) (rows_in_order run.now.bytes.now run.now.start) }
{
    let pairs = run.count.saturating_sub(1);
    (0..pairs).all(|k| {
        let falls = run.word(k + 1, 4) < run.word(k, 4);
        let rises = run.word(k, 8) < run.word(k + 1, 8);
        falls & rises
    })
}

// Is the byte at `at` at most the next one, and that one below n, in each record?
pub fn ranges_within(run: &Run<'_>, at: usize, n: usize) -> bool
    requires { at < 15 }
    ensures { result ≡ every run.now.count (range_within run.now.bytes.now run.now.start at n) }
{
    (0..run.count).all(|k| {
        let lowest = run.byte(k, at);
        let highest = run.byte(k, at + 1);
        (lowest <= highest) & (highest < n)
    })
}
