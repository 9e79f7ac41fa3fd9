// Last conflict: the groups of the last closings first, over any order.
// It holds a small set of groups and one candidate, both kept over restarts.
ghost use Rattle.std.specs.Prelude.{◌≡◌, ℕ, ◌+◌, ◌≤◌, min, [], List, length, Some, None};
ghost use Rattle.branching.specs.Channels.{open?};
ghost use Rattle.branching.specs.Order.{OrderMeaning, Lawful};
ghost use Rattle.branching.specs.Layer.{Layer, earliest, member, fresh, waiting, last_conflict};
ghost use Rattle.branching.specs.LayerLemmas.{layer_lawful};

use crate::order::Order;
use arrayvec::ArrayVec;

// Whether the group keeps two or more channels.
fn is_open(domains: &[u64], group: u16) -> bool
    ensures { result ≡ open? domains.now group }
{
    domains
        .get(usize::from(group))
        .is_some_and(|d| d.count_ones() >= 2)
}

// The groups of the last conflicts, in the order of adding, and one candidate, over an order below.
#[derive(Drop)]
pub struct LastConflict<O> {
    limit: usize,
    kept: ArrayVec<u16, 8>,
    candidate: Option<u16>,
    below: O,
    ghost ok: { (limit ≤ 8) × (length kept.items + waiting candidate ≤ limit) },
}

impl<O> LastConflict<O> {
    pub fn new(k: u32, below: O) -> Self
        ensures { (result.limit ≡ min 8 k) × (result.kept.items ≡ []) × (result.candidate ≡ None) × (result.below ≡ below) }
    {
        LastConflict {
            limit: k.min(8) as usize,
            kept: ArrayVec::new(),
            candidate: None,
            below,
        }
    }

    // The earliest of the set that keeps two or more channels.
    fn earliest_open(&self, domains: &[u64]) -> Option<u16>
        ensures { result ≡ earliest self.now.kept.items domains.now }
    {
        self.kept.iter().copied().find(|g| is_open(domains, *g))
    }

    fn is_fresh(&self, group: u16) -> bool
        ensures { result ≡ fresh self.now.limit self.now.kept.items self.now.candidate group }
    {
        self.candidate.is_none() && self.kept.len() < self.limit && !self.kept.contains(&group)
    }
}

impl<O: Order> Order for LastConflict<O> {
    ghost Held = { Layer O.Order.Held };

    ghost held = { λ s. record { limit = s.limit; kept = s.kept.items; candidate = s.candidate; below = O.Order.held s.below } };

    ghost meaning = { last_conflict O.Order.meaning };

    ghost lawful = { layer_lawful O.Order.meaning O.Order.lawful };

    fn group(&mut self, domains: &[u64]) -> Option<u16> {
        if let Some(g) = self.earliest_open(domains) {
            return Some(g);
        }
        if let Some(g) = self.candidate.take().filter(|g| is_open(domains, *g)) {
            self.kept.push(g);
            return Some(g);
        }
        self.kept.clear();
        self.below.group(domains)
    }

    fn channel(&mut self, domains: &[u64], group: u16) -> Option<u8> {
        self.below.channel(domains, group)
    }

    fn told(&mut self, group: u16) {
        if self.is_fresh(group) {
            self.candidate = Some(group);
        }
        self.below.told(group);
    }
}
