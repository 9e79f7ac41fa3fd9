// Orders by what they answer and hold, and fewest first.
ghost use Rattle.std.specs.Prelude.{◌≡◌, ℕ, ◌<◌, ◌≤◌, ◌&&◌, List, length, MatchOption, nat_le, slice_index};
ghost use Rattle.rules.specs.Channels.{Has};
ghost use Rattle.branching.specs.Channels.{Open};
ghost use Rattle.branching.specs.Order.{OrderMeaning, Lawful, choice, chosen, GoodChoice};
ghost use Rattle.branching.specs.Fewest.{FewestAnswer, LowestAnswer, fewest, lowest, fewest_first};
ghost use Rattle.branching.specs.FewestLemmas.{wins, fewest_lawful};

pub trait Order {
    ghost Held: { Type 0 };

    ghost held: { Self → Held };

    ghost meaning: { OrderMeaning Held };

    // A job has at most 200 groups, and an order is asked about no more, here and in `pick`.
    fn group(&mut self, domains: &[u64]) -> Option<u16>
        requires { length domains.now ≤ 200 }
        ensures answer { result ≡ meaning.group (held self.old) domains.now }
        ensures after { held self.new ≡ meaning.grouped (held self.old) domains.now };

    fn channel(&mut self, domains: &[u64], group: u16) -> Option<u8>
        ensures answer { result ≡ meaning.channel (held self.old) domains.now group }
        ensures after { held self.new ≡ meaning.channeled (held self.old) domains.now group };

    fn told(&mut self, group: u16)
        ensures { held self.new ≡ meaning.heard (held self.old) group };

    ghost lawful: { Lawful meaning };
}

pub fn pick<O: Order>(order: &mut O, domains: &[u64]) -> Option<(u16, u8)>
    requires { length domains.now ≤ 200 }
    ensures answer { result ≡ choice O.meaning (O.held order.old) domains.now }
    ensures after { O.held order.new ≡ chosen O.meaning (O.held order.old) domains.now }
    ensures good { GoodChoice domains.now result }
{
    let g = order.group(domains)?;
    let c = order.channel(domains, g)?;
    Some((g, c))
}

// Whether a group that keeps n channels is answered in place of the best of those before it.
fn is_better(n: u32, best: Option<(u16, u32)>) -> bool
    ensures { result ≡ (nat_le 2 n && wins n best) }
{
    n >= 2 && best.is_none_or(|(_, least)| n < least)
}

#[derive(Clone, Copy)]
pub struct FewestFirst;

impl Order for FewestFirst {
    ghost Held = { Unit {0} };

    ghost held = { λ _. tt };

    ghost meaning = { fewest_first };

    ghost lawful = { fewest_lawful };

    fn group(&mut self, domains: &[u64]) -> Option<u16>
        requires { length domains.now ≤ 65536 }
        ensures answer { result ≡ fewest domains.now }
        ensures after { ◌≡◌ {A = Unit {0}} tt tt }
        ensures least { FewestAnswer domains.now result }
    {
        // A `for`: of `filter` and `min_by_key` a proof does not learn that no open group is left out.
        let mut best: Option<(u16, u32)> = None;
        for (g, d) in domains.iter().enumerate() {
            let n = d.count_ones();
            if is_better(n, best) {
                best = Some((g as u16, n));
            }
        }
        best.map(|(g, _)| g)
    }

    fn channel(&mut self, domains: &[u64], group: u16) -> Option<u8>
        ensures answer { result ≡ lowest (slice_index domains.now group) }
        ensures after { ◌≡◌ {A = Unit {0}} tt tt }
        ensures least { LowestAnswer domains.now group result }
    {
        let m = *domains.get(usize::from(group))?;
        if m == 0 {
            return None;
        }
        Some(m.trailing_zeros() as u8)
    }

    fn told(&mut self, _group: u16) {}
}
