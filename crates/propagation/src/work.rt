// Takes what waits, until nothing does.
ghost use Rattle.std.specs.Prelude.{◌≢◌, [], OnOk, OnErr, IfOk};
ghost use Rattle.model.specs.Remains.{family};
ghost use Rattle.model.specs.Words.{base_of};
ghost use Rattle.propagation.specs.Supports.{Inside, Still, StillWithin};
ghost use Rattle.propagation.specs.Waiting.{queued};
ghost use Rattle.propagation.specs.Settling.{Emptied};
ghost use Rattle.propagation.specs.Desks.{SameDesk, Held, Based};
ghost use Rattle.propagation.specs.Calms.{Agrees, Going, Turned};

use super::bench::Dead;
use super::desk::Desk;
use rules::book::RuleBook;

impl<'d, B: RuleBook> Desk<'d, B> {
    // Takes one of what waits, settled assignments first. Answers whether there was any.
    pub fn take_turn(&mut self) -> Result<bool, Dead>
        requires held { Held (B.meaning self.old.book.now) self.old }
        requires based { Based (B.meaning self.old.book.now) self.old }
        requires going { Going (B.meaning self.old.book.now) self.old }
        ensures same { SameDesk self.old self.new }
        ensures within { StillWithin (Agrees (B.meaning self.old.book.now) (base_of self.old.base.now)) self.old.domains.now self.new.domains.now }
        ensures dead { OnErr result (Emptied self.new.domains.now) }
        ensures first { OnOk result (queued self.old.settled ≢ [] → Still (queued self.old.line.ends) (queued self.new.line.ends)) }
        ensures turned { IfOk result (Turned (B.meaning self.old.book.now) self.old self.new) }
    {
        if let Some(a) = self.settled.pop() {
            self.heed(u32::from(a))?;
            return Ok(true);
        }
        if let Some(e) = self.line.take() {
            self.revise(e)?;
            return Ok(true);
        }
        Ok(false)
    }

    // Turns, until nothing waits or a group keeps nothing.
    pub fn work(&mut self) -> Result<(), Dead>
        requires held { Held (B.meaning self.old.book.now) self.old }
        requires based { Based (B.meaning self.old.book.now) self.old }
        requires going { Going (B.meaning self.old.book.now) self.old }
        ensures same { SameDesk self.old self.new }
        ensures within { StillWithin (Agrees (B.meaning self.old.book.now) (base_of self.old.base.now)) self.old.domains.now self.new.domains.now }
        ensures dead { OnErr result (Emptied self.new.domains.now) }
        ensures inside { OnOk result (Inside (family self.new.domains.now) (family self.old.domains.now)) }
        ensures held { OnOk result (Held (B.meaning self.old.book.now) self.new) }
        ensures agrees { OnOk result (Agrees (B.meaning self.old.book.now) (base_of self.old.base.now) (family self.new.domains.now)) }
    {
        while self.take_turn()? {}
        Ok(())
    }
}
