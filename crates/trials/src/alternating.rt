// A policy of the trials' own: two cutoffs in turn.
ghost use Rattle.std.specs.Prelude.{◌≡◌, ℕ, ◌≤◌, max};
ghost use Rattle.branching.specs.Policy.{PolicyMeaning, LawfulPolicy};
ghost use Rattle.trials.specs.Alternating.{Cutoffs, alternating};
ghost use Rattle.trials.specs.AlternatingLemmas.{alternating_lawful};

use branching::RestartPolicy;
use std::mem;

#[derive(Clone, Copy)]
pub struct Alternating {
    now: u32,
    then: u32,
}

impl Alternating {
    // The two cutoffs, the first of which holds until the first restart; 0 counts as 1.
    pub fn new(first: u32, second: u32) -> Self
        ensures { (result.now ≡ first) × (result.then ≡ second) }
    {
        Alternating {
            now: first,
            then: second,
        }
    }
}

impl RestartPolicy for Alternating {
    ghost Held = { Cutoffs };

    ghost held = { λ s. record { current = s.now; other = s.then } };

    ghost meaning = { alternating };

    ghost lawful = { alternating_lawful };

    fn cutoff(&self) -> u32 {
        self.now.max(1)
    }

    fn advance(&mut self) {
        mem::swap(&mut self.now, &mut self.then);
    }
}
