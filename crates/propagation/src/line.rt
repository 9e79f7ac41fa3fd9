// The line of rule ends that wait, with a mark for each.
ghost use Rattle.std.specs.Prelude.{◌≡◌, ℕ, ◌*◌, ◌<◌, ◌≤◌, ◌||◌, [], ◌∷◌, length, MatchOption, ◌==◌};
ghost use Rattle.std.proofs.Props.{props};
ghost use Rattle.propagation.specs.Waiting.{queued, size};
ghost use Rattle.propagation.specs.Waits.{place, waits, Line as Lined, Once-prop, Space};

use super::ends::{draw, put};
use super::records::RuleEnd;
use super::ring::Ring;

// The ends of the first `rules` rules that wait, each once and marked.
#[derive(Drop)]
pub struct Line<'r> {
    ends: Ring<'r, RuleEnd>,
    marks: &'r mut [u32],
    rules: u32,
    ghost line: { Lined rules (queued ends) marks.now } by { Prim.hlevel (props, Once-prop) },
    ghost space: { Space rules (size ends) marks.now },
}

impl<'r> Line<'r> {
    ghost use Rattle.propagation.specs.Lines.{SameLine};

    // A line in which nothing waits.
    pub fn over(ends: &'r mut [RuleEnd], marks: &'r mut [u32], rules: u32) -> Line<'r>
        requires few { rules ≤ 4096 }
        requires room { 2 * rules ≤ length ends.old }
        requires words { length marks.old ≡ 256 }
        ensures ends { result.ends.places.ghost_name ≡ ends.entry.ghost_name }
        ensures marks { result.marks.ghost_name ≡ marks.entry.ghost_name }
        ensures rules { result.rules ≡ rules }
        ensures empty { queued result.ends ≡ [] }
    {
        marks.fill(0);
        Line {
            ends: Ring::over(ends),
            marks,
            rules,
        }
    }

    // Puts an end in the line, unless it waits there.
    pub fn add(&mut self, e: RuleEnd)
        requires counted { e.rule < self.old.rules }
        ensures same { SameLine self.old self.new }
        ensures more { (j : ℕ) → waits (queued self.new.ends) j ≡ (waits (queued self.old.ends) j || j == place e) }
    {
        put(&mut self.ends, self.marks, self.rules, e);
    }

    // Takes the oldest end out of the line.
    pub fn take(&mut self) -> Option<RuleEnd>
        ensures same { SameLine self.old self.new }
        ensures first { MatchOption result ((queued self.old.ends ≡ []) × (queued self.new.ends ≡ [])) (λ e. (e.rule < self.old.rules) × (queued self.old.ends ≡ e ∷ queued self.new.ends)) }
    {
        draw(&mut self.ends, self.marks, self.rules)
    }
}
