// Sets of channels as 64-bit numbers.
ghost use Rattle.std.specs.Prelude.{◌≡◌, ℕ, ◌<◌, ◌≤◌, min, true, not, ◌&&◌, ◌==◌, nat_le, nat_lt};
ghost use Rattle.std.specs.Iterator.{at_most};
ghost use Rattle.rules.specs.Channels.{has, Spans};
ghost use Rattle.rules.specs.Takings.{TakesOne};

use super::channels::has_channel;

// The set without the channel.
pub fn without(set: u64, c: u8) -> u64
    requires { c < 64 }
    ensures less { result ≤ set }
    ensures fewer { has set c ≡ true → result < set }
    ensures bits { (j : ℕ) → has result j ≡ (has set j && not (j == c)) }
{
    if has_channel(set, c) {
        set - (1 << c)
    } else {
        set
    }
}

// The lowest channel of a set that has one.
pub fn lowest(set: u64) -> u8
    requires { set ≡ 0 → ⊥ }
    ensures small { result < 64 }
    ensures there { has set result ≡ true }
    ensures least { (j : ℕ) → has set j ≡ true → result ≤ j }
{
    set.trailing_zeros() as u8
}

// The highest channel of a set that has one.
pub fn highest(set: u64) -> u8
    requires { set ≡ 0 → ⊥ }
    ensures small { result < 64 }
    ensures there { has set result ≡ true }
    ensures most { (j : ℕ) → has set j ≡ true → j ≤ result }
{
    set.ilog2() as u8
}

// How many channels there are from the lowest of a set to the highest, both counted.
pub fn span(set: u64) -> u32
    ensures { Spans set result }
{
    if set == 0 {
        0
    } else {
        u32::from(highest(set) - lowest(set)) + 1
    }
}

// The channels from `c` on.
pub fn from_on(c: u32) -> u64
    ensures { (j : ℕ) → has result j ≡ (nat_le c j && nat_lt j 64) }
{
    if c < 64 { u64::MAX - ((1 << c) - 1) } else { 0 }
}

// The channels below `c`.
pub fn below(c: u32) -> u64
    ensures { (j : ℕ) → has result j ≡ nat_lt j (min c 64) }
{
    if c < 64 { (1 << c) - 1 } else { u64::MAX }
}

// The channels of a set, the lowest first. A range of 64 numbers would look at those too that are not there.
#[derive(Drop)]
pub struct Channels(pub u64);

impl Iterator for Channels {
    type Item = u8;

    ghost next_gives = { λ s r t. TakesOne s.0 r t.0 };

    ghost remaining = { λ s. at_most s.0 };

    fn next(&mut self) -> Option<u8> {
        if self.0 == 0 {
            return None;
        }
        let c = lowest(self.0);
        self.0 = without(self.0, c);
        Some(c)
    }
}
