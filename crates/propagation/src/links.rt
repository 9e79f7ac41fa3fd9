// What propagation follows in place of a look at all rules and all nogoods. It is made once and lent to every call.
ghost use Rattle.std.specs.Prelude.{◌≡◌, ℕ, ◌≤◌, [], None, length, take, slice_index};
ghost use Rattle.std.specs.List.{AllByRecursion};
ghost use Rattle.model.specs.Words.{recorded, base_of};
ghost use Rattle.propagation.specs.Bases.{Grouped};
ghost use Rattle.propagation.specs.Chains.{link};
ghost use Rattle.propagation.specs.Indexed.{Knows};
ghost use Rattle.propagation.specs.Links.{Linked};

use super::index::Index;
use super::spreads::spread;
use super::wires::{CHAINS, wire};
use rules::book::RuleBook;

// The chains of a book's rule ends, what its groups need to be passed over, and the index of a base.
#[derive(Drop)]
pub struct Links {
    pub wires: [Option<u16>; CHAINS],
    pub spreads: [u32; 200],
    pub index: Index,
}

impl Links {
    // Of no rule and of a base that has nothing. It is made of literals and no more, so that a caller has it made in its place, and not copied there.
    pub fn blank() -> Links
        ensures wires { (p : ℕ) → link result.wires p ≡ None }
        ensures spreads { (g : ℕ) → slice_index result.spreads g ≡ 0 }
        ensures known { Knows [] result.index }
    {
        Links {
            wires: [None; CHAINS],
            spreads: [0; 200],
            index: Index::new(),
        }
    }

    // Blank links become those of a book; the base stays the one that has nothing.
    pub fn follow<B: RuleBook>(&mut self, book: &B)
        requires groups { (B.meaning book.now).groups ≤ 200 }
        requires rules { (B.meaning book.now).count ≤ 4096 }
        requires wires { (p : ℕ) → link self.old.wires p ≡ None }
        requires spreads { (g : ℕ) → slice_index self.old.spreads g ≡ 0 }
        requires known { Knows [] self.old.index }
        ensures { Linked (B.meaning book.now) [] self.new }
    {
        wire(book, &mut self.wires);
        spread(book, &mut self.spreads);
    }

    // Those of a book, and of a base that has nothing.
    pub fn new<B: RuleBook>(book: &B) -> Links
        requires groups { (B.meaning book.now).groups ≤ 200 }
        requires rules { (B.meaning book.now).count ≤ 4096 }
        ensures { Linked (B.meaning book.now) [] result }
    {
        let mut links = Links::blank();
        links.follow(book);
        links
    }

    // The nogoods from the place `from` on go into the index, behind those that it has.
    pub fn add(&mut self, base: &[u32], from: usize)
        requires within { from ≤ length base.now }
        requires short { length base.now ≤ 65536 }
        requires whole { base.now ≡ recorded (base_of base.now) }
        requires grouped { AllByRecursion (Grouped 200) (base_of base.now) }
        requires before { Knows (take from base.now) self.old.index }
        ensures known { Knows base.now self.new.index }
        ensures wires { self.new.wires ≡ self.old.wires }
        ensures spreads { self.new.spreads ≡ self.old.spreads }
    {
        self.index.add(base, from);
    }
}
