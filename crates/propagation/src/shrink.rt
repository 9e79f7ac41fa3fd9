// A group loses channels.
ghost use Rattle.std.specs.Prelude.{◌≡◌, ℕ, ◌<◌, true, length, ◌≢◌, OnOk, OnErr, slice_index, slice_set};
ghost use Rattle.rules.specs.Channels.{has};
ghost use Rattle.propagation.specs.Waiting.{queued, size};
ghost use Rattle.propagation.specs.Settling.{Noting};
ghost use Rattle.propagation.specs.Desks.{SameDesk, Held, Step};

use super::bench::Dead;
use super::desk::Desk;
use super::records::Assignment;
use super::ring::Ring;
use rules::bits::{lowest, without};
use rules::book::RuleBook;

// Where the channels that the group keeps are one, that assignment goes in line.
pub fn settle(g: u16, keeps: u64, settled: &mut Ring<Assignment>)
    requires some { keeps ≢ 0 }
    requires room { length (queued settled.old) < size settled.old }
    ensures held { settled.new.places.ghost_name ≡ settled.old.places.ghost_name }
    ensures sized { size settled.new ≡ size settled.old }
    ensures noting { Noting g keeps (queued settled.old) (queued settled.new) }
{
    let c = lowest(keeps);
    if without(keeps, c) == 0 {
        settled
            .push(Assignment {
                group: g,
                channel: c,
            })
            .unwrap();
    }
}

impl<'d, B: RuleBook> Desk<'d, B> {
    // Group `g` keeps the channels of `keeps`; where these are fewer, what that calls for goes in line.
    pub fn shrink(&mut self, g: u16, keeps: u64) -> Result<(), Dead>
        requires held { Held (B.meaning self.old.book.now) self.old }
        requires group { g < length self.old.domains.now }
        requires inside { (j : ℕ) → has keeps j ≡ true → has (slice_index self.old.domains.now g) j ≡ true }
        ensures same { SameDesk self.old self.new }
        ensures left { self.new.domains.now ≡ slice_set self.old.domains.now g keeps }
        ensures dead { OnErr result (keeps ≡ 0) }
        ensures held { OnOk result (Held (B.meaning self.old.book.now) self.new) }
        ensures step { OnOk result (Step (B.meaning self.old.book.now) self.old self.new) }
    {
        // The casts widen; of a `from` the proof would know less.
        let old = self.domains[g as usize];
        if keeps == old {
            return Ok(());
        }
        self.domains[g as usize] = keeps;
        if keeps == 0 {
            return Err(Dead);
        }
        self.queue_unless_wide(g);
        settle(g, keeps, &mut self.settled);
        Ok(())
    }
}
