// An order of the trials' own: the open group of the greatest weight. A group gains weight with each of its closings.
ghost use Rattle.std.specs.Prelude.{◌≡◌, ℕ, ◌≤◌, ◌&&◌, List, length, replicate, nat_le, slice_index};
ghost use Rattle.branching.specs.Order.{OrderMeaning, Lawful};
ghost use Rattle.trials.specs.Heaviest.{heaviest_first, outweighs};
ghost use Rattle.trials.specs.HeaviestLemmas.{heaviest_lawful};

use branching::{FewestFirst, Order};

// One weight for each group. An order is asked about at most 200, so a group's number is a place here.
#[derive(Drop)]
pub struct Heaviest {
    weights: [u32; 200],
}

impl Heaviest {
    // All groups weigh the same.
    pub fn new() -> Self
        ensures { result.weights ≡ replicate 200 0 }
    {
        Heaviest { weights: [0; 200] }
    }
}

// Whether an open group of this weight is answered in place of the heaviest of those before it.
fn is_heavier(weight: u32, best: Option<(u16, u32)>) -> bool
    ensures { result ≡ outweighs weight best }
{
    best.is_none_or(|(_, most)| weight > most)
}

impl Order for Heaviest {
    ghost Held = { List ℕ };

    ghost held = { λ s. s.weights };

    ghost meaning = { heaviest_first };

    ghost lawful = { heaviest_lawful };

    fn group(&mut self, domains: &[u64]) -> Option<u16> {
        let mut best: Option<(u16, u32)> = None;
        for (g, d) in domains.iter().enumerate() {
            let weight = self.weights[g];
            if d.count_ones() >= 2 && is_heavier(weight, best) {
                best = Some((g as u16, weight));
            }
        }
        best.map(|(g, _)| g)
    }

    fn channel(&mut self, domains: &[u64], group: u16) -> Option<u8> {
        FewestFirst.channel(domains, group)
    }

    // A group past the weights is none of a job.
    fn told(&mut self, group: u16) {
        let place = usize::from(group);
        if place < self.weights.len() {
            self.weights[place] = self.weights[place].saturating_add(1);
        }
    }
}
