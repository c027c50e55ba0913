// Writes the reply of `size` into the caller's buffer: eight bytes for the delay and for each place. Bounds and sizings go by position; `position`
// says where a place stands in them.
#![tactic(auto)]

ghost use Rattle.std.specs.Prelude.{◌≡◌, ◌+◌, ◌*◌, ◌≤◌, ◌<◌, suc, length};
ghost use Rattle.std.proofs.lemmas.List.Edits.{sets};
ghost use Rattle.net.specs.Answers.{little_endian};
ghost use Rattle.positions.specs.Arranged.{Among};
ghost use Rattle.reply.specs.Records.{place_bytes, of_place, replied, bounds_replied};

use positions::Bounds;
use quantity::Delay;

// Puts a record of eight bytes from a start on.
fn put(buffer: &mut [u8], start: usize, bytes: [u8; 8])
    requires { start + 8 ≤ length buffer.old }
    ensures { buffer.new ≡ sets buffer.old start bytes }
{
    buffer[start..start + 8].copy_from_slice(&bytes);
}

// What a reply has for its places, by position, and the position of each place: the bounds, and between them the envelopes, lean as the lower one and
// wide as the upper one.
#[derive(Clone, Copy)]
struct Figures<'p, 'b, 'e> {
    position: &'p [usize; 76],
    bounds: Bounds<'b>,
    envelope: Bounds<'e>,
    ghost few: { length bounds.lower.now ≤ 76 },
    ghost among: { Among (length bounds.lower.now) (length bounds.lower.now) position.now },
    ghost upper_long: { length bounds.lower.now ≤ length bounds.upper.now },
    ghost lean_long: { length bounds.lower.now ≤ length envelope.lower.now },
    ghost wide_long: { length bounds.lower.now ≤ length envelope.upper.now },
}

impl Figures<'_, '_, '_> {
    // The record of place p.
    fn place_record(&self, p: usize) -> [u8; 8]
        requires { p < length self.now.bounds.lower.now }
        ensures { result ≡ place_bytes
            (of_place self.now.position.now self.now.bounds.lower.now p)
            (of_place self.now.position.now self.now.bounds.upper.now p)
            (of_place self.now.position.now self.now.envelope.lower.now p)
            (of_place self.now.position.now self.now.envelope.upper.now p) }
    {
        let t = self.position[p];
        let Bounds { lower, upper } = self.bounds;
        let Bounds {
            lower: lean,
            upper: wide,
        } = self.envelope;
        [lower[t], upper[t], lean[t], wide[t], 0, 0, 0, 0]
    }

    // Puts a whole reply: the delay's record, and behind it those of the places.
    fn put(&self, buffer: &mut [u8], delay: u64)
        requires { 8 * suc (length self.now.bounds.lower.now) ≤ length buffer.old }
        ensures { buffer.new ≡ replied (length self.now.bounds.lower.now) (little_endian 8 delay)
            self.now.position.now self.now.bounds.lower.now self.now.bounds.upper.now
            self.now.envelope.lower.now self.now.envelope.upper.now buffer.old }
    {
        put(buffer, 0, delay.to_le_bytes());
        for p in 0..self.bounds.lower.len() {
            put(buffer, 8 * (1 + p), self.place_record(p));
        }
    }
}

// Puts the finished reply: the least delay, and at each place both bounds, lean and wide, which are the two ends of the envelope.
pub fn finished(
    buffer: &mut [u8],
    position: &[usize; 76],
    least: Delay,
    bounds: Bounds<'_>,
    envelope: Bounds<'_>,
)
    requires lower_in_bounds { 8 * suc (length bounds.lower.now) ≤ length buffer.old }
    requires lower_len_bound { (length bounds.lower.now ≤ 76) × Among (length bounds.lower.now) (length bounds.lower.now) position.now }
    requires upper_len { length bounds.upper.now ≡ length bounds.lower.now }
    requires lean_len { length envelope.lower.now ≡ length bounds.lower.now }
    requires wide_len { length envelope.upper.now ≡ length bounds.lower.now }
    ensures { buffer.new ≡ replied (length bounds.entry.lower.now) (little_endian 8 least.0)
        position.now bounds.entry.lower.now bounds.entry.upper.now envelope.entry.lower.now envelope.entry.upper.now buffer.old }
{
    let figures = Figures {
        position,
        bounds,
        envelope,
    };
    figures.put(buffer, least.0);
}

// Puts the reply that has the bounds of at most 76 places and all else 255.
pub fn bounds_only(buffer: &mut [u8], position: &[usize; 76], bounds: Bounds<'_>)
    requires lower_in_bounds { 8 * suc (length bounds.lower.now) ≤ length buffer.old }
    requires upper_len { length bounds.upper.now ≡ length bounds.lower.now }
    requires lower_len_bound { (length bounds.lower.now ≤ 76) × Among (length bounds.lower.now) (length bounds.lower.now) position.now }
    ensures { buffer.new ≡ bounds_replied (length bounds.entry.lower.now) position.now bounds.entry.lower.now bounds.entry.upper.now buffer.old }
{
    let none = [u8::MAX; 76];
    let envelope = Bounds {
        lower: &none,
        upper: &none,
    };
    let figures = Figures {
        position,
        bounds,
        envelope,
    };
    figures.put(buffer, u64::MAX);
}
