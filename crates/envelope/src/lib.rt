// What a search keeps: the least delay so far, and the envelope from below and from above of the sizings that have it.
#![tactic(auto)]

ghost use Rattle.std.specs.Prelude.{◌≡◌, length};
ghost use Rattle.lattice.specs.Side.{extreme};
ghost use Rattle.lattice.specs.Space.{merge as merged};
ghost use Rattle.lattice.specs.Search.{take as taken};
ghost use Rattle.lattice.specs.SideOf.{side_of};
ghost use Rattle.envelope.specs.Kept.{found_of, SameSpace};

use lattice::Side;
use quantity::Delay;

// The one of two indices that comes first, seen from the side.
fn first_seen(side: Side, a: u8, b: u8) -> u8
    ensures { result ≡ extreme (side_of side) a b }
{
    match side {
        Side::Below => a.min(b),
        Side::Above => a.max(b),
    }
}

// Puts at each place the index of x, where it comes first seen from the side.
fn merge(x: &[u8], best: &mut [u8], side: Side)
    requires { length x.now ≡ length best.old }
    ensures { best.new ≡ merged (side_of side) x.now best.old }
{
    for (i, k) in x.iter().enumerate() {
        best[i] = first_seen(side, *k, best[i]);
    }
}

// The least delay so far, and in lent space, at each place, the smallest and the largest index of the sizings that have it.
#[derive(Drop)]
pub struct Kept<'k> {
    pub least: Delay,
    pub lean: &'k mut [u8],
    pub wide: &'k mut [u8],
}

impl Kept<'_> {
    // Takes one more sizing x, of delay d, into the least delay and both envelopes.
    pub fn keep(&mut self, x: &[u8], d: Delay)
        requires lean_len { length x.now ≡ length self.old.lean.now }
        requires wide_len { length x.now ≡ length self.old.wide.now }
        ensures same_space { SameSpace self.old self.new }
        ensures taken { found_of self.new ≡ taken x.now d.0 (found_of self.old) }
    {
        if d < self.least {
            self.least = d;
            self.lean.copy_from_slice(x);
            self.wide.copy_from_slice(x);
        } else if d == self.least {
            merge(x, self.lean, Side::Below);
            merge(x, self.wide, Side::Above);
        }
    }
}
