// The rule ends across from a group go in the line.
ghost use Rattle.std.specs.Prelude.{◌≡◌, ℕ, ◌+◌, ◌<◌, ◌≤◌, true, ◌≢◌, ◌⊎◌, length, slice_index};
ghost use Rattle.rules.specs.Channels.{has};
ghost use Rattle.model.specs.Remains.{family, Alive};
ghost use Rattle.propagation.specs.Waiting.{queued};
ghost use Rattle.propagation.specs.Waits.{waits};
ghost use Rattle.propagation.specs.Supports.{Still, Across, Served};
ghost use Rattle.propagation.specs.Wires.{Facing, Wired};
ghost use Rattle.propagation.specs.Lines.{SameLine};
ghost use Rattle.propagation.specs.Desks.{Fitted};

use super::desk::Desk;
use super::records::RuleEnd;
use rules::bits::{highest, lowest};
use rules::book::RuleBook;

impl<'d, B: RuleBook> Desk<'d, B> {
    // All rule ends that have group `g` across go in the line, along the group's chain.
    pub fn queue_across(&mut self, g: u16)
        requires wired { Wired (B.meaning self.old.book.now) self.old.wires.now }
        requires rules { self.old.line.rules ≡ (B.meaning self.old.book.now).count }
        requires group { g < (B.meaning self.old.book.now).groups }
        ensures only { self.new ≡ record self.old { line = self.new.line } }
        ensures line { SameLine self.old.line self.new.line }
        ensures still { Still (queued self.old.line.ends) (queued self.new.line.ends) }
        ensures across { (i : ℕ) → Across (B.meaning self.old.book.now) g i (queued self.new.line.ends) }
        ensures no_more { (e : ℕ) → waits (queued self.new.line.ends) e ≡ true → (waits (queued self.old.line.ends) e ≡ true) ⊎ Facing (B.meaning self.old.book.now) g e }
    {
        // Along the chain, which lies in an array, since nothing here has a heap. (The casts widen; of a `from` the proof would know less.)
        let mut next = self.wires[8192 + g as usize];
        while let Some(e) = next {
            self.line.add(RuleEnd {
                rule: (e / 2) as u32,
                second: e % 2 == 1,
            });
            next = self.wires[e as usize];
        }
    }

    // The same, unless two channels of the group are so far apart that every channel across from it goes with one of them.
    pub fn queue_unless_wide(&mut self, g: u16)
        requires fits { Fitted (B.meaning self.old.book.now) self.old }
        requires group { g < length self.old.domains.now }
        requires some { slice_index self.old.domains.now g ≢ 0 }
        ensures only { self.new ≡ record self.old { line = self.new.line } }
        ensures line { SameLine self.old.line self.new.line }
        ensures still { Still (queued self.old.line.ends) (queued self.new.line.ends) }
        ensures served { (i : ℕ) → Served (B.meaning self.old.book.now) g (slice_index self.old.domains.now g) i (queued self.new.line.ends) }
        ensures wide { (a b : ℕ) → has (slice_index self.old.domains.now g) a ≡ true → has (slice_index self.old.domains.now g) b ≡ true → a + slice_index self.old.spreads.now g ≤ b → self.new ≡ self.old }
    {
        let keeps = self.domains[g as usize];
        if u32::from(highest(keeps) - lowest(keeps)) < self.spreads[g as usize] {
            self.queue_across(g);
        }
    }

    // The same for every group.
    pub fn queue_narrow(&mut self)
        requires fits { Fitted (B.meaning self.old.book.now) self.old }
        requires alive { Alive self.old.domains.now (family self.old.domains.now) }
        ensures only { self.new ≡ record self.old { line = self.new.line } }
        ensures line { SameLine self.old.line self.new.line }
        ensures served { (g i : ℕ) → g < length self.old.domains.now → Served (B.meaning self.old.book.now) g (slice_index self.old.domains.now g) i (queued self.new.line.ends) }
    {
        for g in 0..self.domains.len() as u16 {
            self.queue_unless_wide(g);
        }
    }
}
