// The walk over the base.
ghost use Rattle.std.specs.Prelude.{OnOk, OnErr};
ghost use Rattle.std.specs.List.{AllByRecursion};
ghost use Rattle.propagation.specs.Waiting.{queued};
ghost use Rattle.model.specs.Remains.{Heeds};
ghost use Rattle.model.specs.Words.{base_of};
ghost use Rattle.propagation.specs.Supports.{StillWithin};
ghost use Rattle.propagation.specs.Settling.{Emptied};
ghost use Rattle.propagation.specs.Desks.{SameDesk, Held, Based, Step};
ghost use Rattle.propagation.specs.Bases.{Good};

use super::bench::Dead;
use super::desk::Desk;
use model::base::Nogoods;
use rules::book::RuleBook;

impl<'d, B: RuleBook> Desk<'d, B> {
    // Looks at every nogood.
    pub fn heed_all(&mut self) -> Result<(), Dead>
        requires held { Held (B.meaning self.old.book.now) self.old }
        requires based { Based (B.meaning self.old.book.now) self.old }
        ensures same { SameDesk self.old self.new }
        ensures within { StillWithin (λ k. AllByRecursion (Heeds k) (base_of self.old.base.now)) self.old.domains.now self.new.domains.now }
        ensures dead { OnErr result (Emptied self.new.domains.now) }
        ensures held { OnOk result (Held (B.meaning self.old.book.now) self.new) }
        ensures step { OnOk result (Step (B.meaning self.old.book.now) self.old self.new) }
        ensures good { OnOk result (AllByRecursion (Good self.new.domains.now (queued self.new.settled)) (base_of self.old.base.now)) }
    {
        for (_, nogood) in Nogoods(self.base) {
            self.look(nogood)?;
        }
        Ok(())
    }
}
