// Orders and policies of two makes, either of which may be chosen for a visit. (More than two nest to the right.)
ghost use Rattle.std.specs.Prelude.{◌⊎◌};
ghost use Rattle.visits.specs.OneOf.{holds, either_order, either_policy, either_lawful, either_lawful_policy};

use branching::{Order, RestartPolicy};

#[derive(Drop)]
pub enum OneOf<A, B> {
    First(A),
    Second(B),
}

impl<A: Order, B: Order> Order for OneOf<A, B> {
    ghost Held = { A.Order.Held ⊎ B.Order.Held };

    ghost held = { λ s. holds A.Order.held B.Order.held s };

    ghost meaning = { either_order A.Order.meaning B.Order.meaning };

    ghost lawful = { either_lawful A.Order.meaning B.Order.meaning A.Order.lawful B.Order.lawful };

    fn group(&mut self, domains: &[u64]) -> Option<u16> {
        match self {
            OneOf::First(order) => order.group(domains),
            OneOf::Second(order) => order.group(domains),
        }
    }

    fn channel(&mut self, domains: &[u64], group: u16) -> Option<u8> {
        match self {
            OneOf::First(order) => order.channel(domains, group),
            OneOf::Second(order) => order.channel(domains, group),
        }
    }

    fn told(&mut self, group: u16) {
        match self {
            OneOf::First(order) => order.told(group),
            OneOf::Second(order) => order.told(group),
        }
    }
}

impl<A: RestartPolicy, B: RestartPolicy> RestartPolicy for OneOf<A, B> {
    ghost Held = { A.RestartPolicy.Held ⊎ B.RestartPolicy.Held };

    ghost held = { λ s. holds A.RestartPolicy.held B.RestartPolicy.held s };

    ghost meaning = { either_policy A.RestartPolicy.meaning B.RestartPolicy.meaning };

    ghost lawful = { either_lawful_policy A.RestartPolicy.meaning B.RestartPolicy.meaning A.RestartPolicy.lawful B.RestartPolicy.lawful };

    fn cutoff(&self) -> u32 {
        match self {
            OneOf::First(policy) => policy.cutoff(),
            OneOf::Second(policy) => policy.cutoff(),
        }
    }

    fn advance(&mut self) {
        match self {
            OneOf::First(policy) => policy.advance(),
            OneOf::Second(policy) => policy.advance(),
        }
    }
}
