// An order of the trials' own: the highest group that keeps two or more channels, with its highest channel.
ghost use Rattle.std.specs.Prelude.{◌≡◌, ℕ, ◌≤◌, List, length, get_or};
ghost use Rattle.branching.specs.Order.{OrderMeaning, Lawful};
ghost use Rattle.trials.specs.Highest.{highest_first};
ghost use Rattle.trials.specs.Tops.{highest_lawful};

use branching::Order;

#[derive(Clone, Copy)]
pub struct HighestFirst;

impl Order for HighestFirst {
    ghost Held = { Unit {0} };

    ghost held = { λ _. tt };

    ghost meaning = { highest_first };

    ghost lawful = { highest_lawful };

    fn group(&mut self, domains: &[u64]) -> Option<u16> {
        let g = domains.iter().rposition(|d| d.count_ones() >= 2)?;
        Some(g as u16)
    }

    // As fewest first answers, from the other end.
    fn channel(&mut self, domains: &[u64], group: u16) -> Option<u8> {
        let channels = *domains.get(usize::from(group))?;
        let highest = channels.checked_ilog2()?;
        Some(highest as u8)
    }

    fn told(&mut self, _group: u16) {}
}
