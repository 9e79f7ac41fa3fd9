// The group at an end of a rule keeps the channels that are backed from across.
ghost use Rattle.std.specs.Prelude.{◌≡◌, OnOk, OnErr};
ghost use Rattle.model.specs.Remains.{family};
ghost use Rattle.rules.specs.Supports.{near, far};
ghost use Rattle.propagation.specs.Supports.{Supported, StillWithin};
ghost use Rattle.propagation.specs.Settling.{Emptied};
ghost use Rattle.propagation.specs.Desks.{SameDesk, Held, Step};

use super::bench::Dead;
use super::desk::Desk;
use super::records::RuleEnd;
use rules::book::RuleBook;

// The group at the end, and the one across. The flag says which end it is.
pub fn turned(second: bool, e: (u16, u16)) -> (u16, u16)
    ensures here { result.0 ≡ near second e }
    ensures there { result.1 ≡ far second e }
{
    if second { (e.1, e.0) } else { e }
}

impl<'d, B: RuleBook> Desk<'d, B> {
    // The look at one rule end.
    pub fn revise(&mut self, e: RuleEnd) -> Result<(), Dead>
        requires held { Held (B.meaning self.old.book.now) self.old }
        ensures same { SameDesk self.old self.new }
        ensures within { StillWithin (λ k. Supported (B.meaning self.old.book.now) k e.rule e.second) self.old.domains.now self.new.domains.now }
        ensures dead { OnErr result (Emptied self.new.domains.now) }
        ensures held { OnOk result (Held (B.meaning self.old.book.now) self.new) }
        ensures step { OnOk result (Step (B.meaning self.old.book.now) self.old self.new) }
        ensures done { OnOk result (Supported (B.meaning self.old.book.now) (family self.new.domains.now) e.rule e.second) }
    {
        let Some(pair) = self.book.ends(e.rule) else {
            return Ok(());
        };
        let (near, far) = turned(e.second, pair);
        // The casts widen; of a `from` the proof would know less.
        let set = self.domains[near as usize];
        let across = self.domains[far as usize];
        let keeps = self.book.backed(e.rule, e.second, set, across);
        self.shrink(near, keeps)
    }
}
