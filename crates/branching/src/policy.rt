// Restart policies by what they answer and hold: geometric and steady.
ghost use Rattle.std.specs.Prelude.{◌≡◌, ℕ, ◌+◌, ◌/◌, ◌<◌, ◌≤◌};
ghost use Rattle.branching.specs.Policy.{PolicyMeaning, LawfulPolicy, geometric, steady, clamped};
ghost use Rattle.branching.specs.PolicyLemmas.{geometric_lawful, steady_lawful};

pub trait RestartPolicy {
    ghost Held: { Type 0 };

    ghost held: { Self → Held };

    ghost meaning: { PolicyMeaning Held };

    fn cutoff(&self) -> u32
        ensures { result ≡ meaning.cutoff (held self.now) };

    fn advance(&mut self)
        ensures { held self.new ≡ meaning.next (held self.old) };

    ghost lawful: { LawfulPolicy meaning };
}

// It shares a number with a bound with the steady policy; start, bound and step differ, so these are two types.
#[derive(Drop)]
pub struct Geometric {
    value: u32,
    ghost ok: { (1 ≤ value) × (value ≤ 1000000000) },
}

impl Geometric {
    pub fn new() -> Self
        ensures { result.value ≡ 10 }
    {
        Geometric { value: 10 }
    }
}

impl RestartPolicy for Geometric {
    ghost Held = { ℕ };

    ghost held = { λ s. s.value };

    ghost meaning = { geometric };

    ghost lawful = { geometric_lawful };

    fn cutoff(&self) -> u32 {
        self.value
    }

    fn advance(&mut self) {
        self.value = (self.value + self.value / 2).min(1_000_000_000);
    }
}

#[derive(Drop)]
pub struct Steady {
    value: u32,
    ghost ok: { (1 ≤ value) × (value ≤ 1000) },
}

impl Steady {
    pub fn new(cutoff: u32) -> Self
        ensures { result.value ≡ clamped cutoff }
    {
        Steady {
            value: cutoff.clamp(1, 1000),
        }
    }
}

impl RestartPolicy for Steady {
    ghost Held = { ℕ };

    ghost held = { λ s. s.value };

    ghost meaning = { steady };

    ghost lawful = { steady_lawful };

    fn cutoff(&self) -> u32 {
        self.value
    }

    fn advance(&mut self) {}
}
