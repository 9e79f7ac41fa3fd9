// A nogood whose other assignments are all settled loses the last one.
ghost use Rattle.std.specs.Prelude.{◌≡◌, ℕ, ◌/◌, ◌<◌, length, Decides, MatchOption, OnOk, OnErr, slice_index};
ghost use Rattle.model.specs.Masks.{grp};
ghost use Rattle.model.specs.Remains.{family, Only, Gone, Heeds};
ghost use Rattle.propagation.specs.Supports.{StillWithin};
ghost use Rattle.propagation.specs.Settling.{Emptied};
ghost use Rattle.propagation.specs.Desks.{SameDesk, Held, Step};
ghost use Rattle.propagation.specs.Bases.{Grouped, Forced, Finds};

use super::bench::Dead;
use super::desk::Desk;
use model::decision::{channel_of, group_of};
use rules::bits::without;
use rules::book::RuleBook;

// Whether the group of the assignment keeps no channel but its own.
pub fn is_only(domains: &[u64], v: u32) -> bool
    requires { v / 64 < length domains.now }
    ensures { Decides result (Only (family domains.now) v) }
{
    without(domains[group_of(v)], channel_of(v)) == 0
}

// Whether the others are all settled. (A `for`, here and in `unsettled`: of `all` and `find` the check does not find what the closure asks.)
pub fn others_settled(nogood: &[u32], w: u32, domains: &[u64]) -> bool
    requires { Grouped (length domains.now) nogood.now }
    ensures { Decides result (Forced (family domains.now) nogood.now w) }
{
    for &v in nogood {
        if v != w && !is_only(domains, v) {
            return false;
        }
    }
    true
}

// The first assignment whose group keeps another channel.
pub fn unsettled(nogood: &[u32], domains: &[u64]) -> Option<u32>
    requires { Grouped (length domains.now) nogood.now }
    ensures { MatchOption result ((k : ℕ) → k < length nogood.now → Only (family domains.now) (slice_index nogood.now k)) (λ w. (k : ℕ) × (k < length nogood.now) × (w ≡ slice_index nogood.now k) × (Only (family domains.now) w → ⊥)) }
{
    for &v in nogood {
        if !is_only(domains, v) {
            return Some(v);
        }
    }
    None
}

// An assignment whose others are all settled: the one that is not settled itself, or any.
pub fn forced(nogood: &[u32], domains: &[u64]) -> Option<u32>
    requires { Grouped (length domains.now) nogood.now }
    ensures { Finds (Forced (family domains.now) nogood.now) nogood.now result }
{
    match unsettled(nogood, domains) {
        Some(w) => others_settled(nogood, w, domains).then_some(w),
        None => nogood.first().copied(),
    }
}

impl<'d, B: RuleBook> Desk<'d, B> {
    // The channel of an assignment goes.
    pub fn remove(&mut self, v: u32) -> Result<(), Dead>
        requires held { Held (B.meaning self.old.book.now) self.old }
        requires group { grp v < length self.old.domains.now }
        ensures same { SameDesk self.old self.new }
        ensures within { StillWithin (λ k. Gone k v) self.old.domains.now self.new.domains.now }
        ensures gone { Gone (family self.new.domains.now) v }
        ensures dead { OnErr result (Emptied self.new.domains.now) }
        ensures held { OnOk result (Held (B.meaning self.old.book.now) self.new) }
        ensures step { OnOk result (Step (B.meaning self.old.book.now) self.old self.new) }
    {
        let g = group_of(v);
        let keeps = without(self.domains[g], channel_of(v));
        self.shrink(g as u16, keeps)
    }

    // The assignment of a nogood that has to go, if there is one. (A method of its own: where a `&mut` desk lends its domains as `&`, what they
    // are is not known afterwards.)
    pub fn forced(&self, nogood: &[u32]) -> Option<u32>
        requires { Grouped (length self.now.domains.now) nogood.now }
        ensures { Finds (Forced (family self.now.domains.now) nogood.now) nogood.now result }
    {
        forced(nogood, self.domains)
    }

    // The look at one nogood.
    pub fn look(&mut self, nogood: &[u32]) -> Result<(), Dead>
        requires held { Held (B.meaning self.old.book.now) self.old }
        requires grouped { Grouped (length self.old.domains.now) nogood.now }
        ensures same { SameDesk self.old self.new }
        ensures within { StillWithin (λ k. Heeds k nogood.now) self.old.domains.now self.new.domains.now }
        ensures dead { OnErr result (Emptied self.new.domains.now) }
        ensures held { OnOk result (Held (B.meaning self.old.book.now) self.new) }
        ensures step { OnOk result (Step (B.meaning self.old.book.now) self.old self.new) }
        ensures heeds { OnOk result (Heeds (family self.new.domains.now) nogood.now) }
    {
        match self.forced(nogood) {
            None => Ok(()),
            Some(w) => self.remove(w),
        }
    }
}
