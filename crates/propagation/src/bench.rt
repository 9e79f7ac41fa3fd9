// What propagation works in, and its one bad end.

ghost use Rattle.std.specs.Prelude.{◌≡◌, ◌≤◌, length, take};

use super::records::{Assignment, RuleEnd};

// The regions that propagation works in.
#[derive(Drop)]
pub struct Bench<'r> {
    pub domains: &'r mut [u64],
    pub marks: &'r mut [u32],
    pub ends: &'r mut [RuleEnd],
    pub settled: &'r mut [Assignment],
}

impl Bench<'_> {
    // What the first domains are, read into a region.
    pub(crate) fn read(&self, to: &mut [u64])
        requires { length to.old ≤ length self.now.domains.now }
        ensures { to.new ≡ take (length to.old) self.now.domains.now }
    {
        to.copy_from_slice(&self.domains[0..to.len()]);
    }
}

// Some group keeps nothing.
#[derive(Clone, Copy, PartialEq, Eq, Debug)]
pub struct Dead;
