// Resistance, capacitance and scaled delay, kept apart: one struct each. Two of a kind are added by `+`, and products are made by the functions here
// alone, each with a name of its own.
#![tactic(auto)]

ghost use Rattle.std.specs.Prelude.{◌≡◌, ◌+◌, ◌*◌, ◌^◌, ◌<◌, ◌≤◌};

use std::ops::Add;

#[derive(Clone, Copy, PartialEq, Eq, PartialOrd, Ord)]
pub struct Resistance(pub u64);

#[derive(Clone, Copy, PartialEq, Eq, PartialOrd, Ord)]
pub struct Capacitance(pub u64);

// Twice a delay, or a weighted sum of such.
#[derive(Clone, Copy, PartialEq, Eq, PartialOrd, Ord)]
pub struct Delay(pub u64);

// Two resistances, one after the other.
impl Add for Resistance {
    type Output = Resistance;

    ghost can_add = { λ a b. a.0 + b.0 < 2 ^ 63 };

    ghost add_gives = { λ a b r. (r.0 ≡ a.0 + b.0) × (r.0 < 2 ^ 63) };

    fn add(self, other: Resistance) -> Resistance {
        Resistance(self.0 + other.0)
    }
}

// Two capacitances at one node.
impl Add for Capacitance {
    type Output = Capacitance;

    ghost can_add = { λ a b. a.0 + b.0 < 2 ^ 63 };

    ghost add_gives = { λ a b r. (r.0 ≡ a.0 + b.0) × (r.0 < 2 ^ 63) };

    fn add(self, other: Capacitance) -> Capacitance {
        Capacitance(self.0 + other.0)
    }
}

// One delay after another.
impl Add for Delay {
    type Output = Delay;

    ghost can_add = { λ a b. a.0 + b.0 < 2 ^ 63 };

    ghost add_gives = { λ a b r. (r.0 ≡ a.0 + b.0) × (r.0 < 2 ^ 63) };

    fn add(self, other: Delay) -> Delay {
        Delay(self.0 + other.0)
    }
}

// A figure per unit of length, times a length.
fn along(row: u64, length: u64) -> u64
    requires { (row < 2 ^ 32) × (length < 2 ^ 32) }
    ensures { (result ≡ row * length) × (result < 2 ^ 64) }
{
    row * length
}

impl Resistance {
    // The resistance of a wire, where this is its row's.
    pub fn along(self, length: u64) -> Resistance
        requires { (self.0 < 2 ^ 32) × (length < 2 ^ 32) }
        ensures { (result.0 ≡ self.0 * length) × (result.0 < 2 ^ 64) }
    {
        Resistance(along(self.0, length))
    }

    // The delay of a capacitance charged through the resistance.
    pub fn charging(self, charged: Capacitance) -> Delay
        requires { self.0 * charged.0 < 2 ^ 63 }
        ensures { (result.0 ≡ self.0 * charged.0) × (result.0 < 2 ^ 63) }
    {
        Delay(self.0 * charged.0)
    }

    // The resistance as often as the weight says: what a weighted delay grows by with each unit of load.
    pub fn weighted(self, weight: u64) -> Resistance
        requires { weight * self.0 < 2 ^ 63 }
        ensures { (result.0 ≡ weight * self.0) × (result.0 < 2 ^ 63) }
    {
        Resistance(weight * self.0)
    }
}

impl Capacitance {
    // The capacitance of a wire, where this is its row's.
    pub fn along(self, length: u64) -> Capacitance
        requires { (self.0 < 2 ^ 32) × (length < 2 ^ 32) }
        ensures { (result.0 ≡ self.0 * length) × (result.0 < 2 ^ 64) }
    {
        Capacitance(along(self.0, length))
    }

    // Twice what a wire's resistance charges, where this is the wire's own capacitance: half of it, and all the load under it.
    pub fn charged_twice(self, under: Capacitance) -> Capacitance
        requires { self.0 + 2 * under.0 < 2 ^ 63 }
        ensures { (result.0 ≡ self.0 + 2 * under.0) × (result.0 < 2 ^ 63) }
    {
        Capacitance(self.0 + 2 * under.0)
    }
}

impl Delay {
    // The delay as often as the weight says.
    pub fn weighted(self, weight: u64) -> Delay
        requires { weight * self.0 < 2 ^ 63 }
        ensures { (result.0 ≡ weight * self.0) × (result.0 < 2 ^ 63) }
    {
        Delay(weight * self.0)
    }

    // This delay with one part of it taken out and another put in its place.
    pub fn exchange(self, out: Delay, into: Delay) -> Delay
        requires whole_bound { (self.0 < 2 ^ 63) × (into.0 < 2 ^ 63) }
        requires out_bound { (out.0 ≤ self.0 + into.0) × (self.0 + into.0 < out.0 + 2 ^ 63) }
        ensures { (result.0 + out.0 ≡ self.0 + into.0) × (result.0 < 2 ^ 63) }
    {
        Delay(self.0 + into.0 - out.0)
    }
}
