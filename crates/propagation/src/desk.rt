// What lies on the desk while channels are taken away.
ghost use Rattle.std.specs.Prelude.{◌≡◌, ◌*◌, ◌≤◌, length};
ghost use Rattle.std.specs.List.{AllByRecursion};
ghost use Rattle.model.specs.Words.{base_of};
ghost use Rattle.propagation.specs.Wires.{Wired};
ghost use Rattle.propagation.specs.Spreads.{Spreads};
ghost use Rattle.propagation.specs.Bases.{Grouped};
ghost use Rattle.propagation.specs.Desks.{Laid};
ghost use Rattle.propagation.specs.Indexed.{Knows};

use super::index::Index;
use super::line::Line;
use super::records::{Assignment, RuleEnd};
use super::ring::Ring;
use rules::book::RuleBook;

// A book with its chains and the base with its index, what remains of the lists, and the two lines of what waits to be looked at.
// That it is in order is a clause (`Held`) and no ghost field: that every group keeps something is a part of it, and ends with `Dead`.
// That it fits its book is none either: a field that names what the book stands for would make the type take one argument more.
#[derive(Drop)]
pub struct Desk<'d, B: RuleBook> {
    pub book: &'d B,
    pub wires: &'d [Option<u16>],
    pub spreads: &'d [u32],
    pub base: &'d [u32],
    pub index: &'d Index,
    pub domains: &'d mut [u64],
    pub line: Line<'d>,
    pub settled: Ring<'d, Assignment>,
}

impl<'d, B: RuleBook> Desk<'d, B> {
    // A desk over regions of the sizes needed, on which nothing waits. The regions come one by one: of a bench that lies in a desk the check
    // does not learn what it is left as.
    pub fn over(
        book: &'d B,
        wires: &'d [Option<u16>],
        spreads: &'d [u32],
        base: &'d [u32],
        index: &'d Index,
        domains: &'d mut [u64],
        marks: &'d mut [u32],
        ends: &'d mut [RuleEnd],
        settled: &'d mut [Assignment],
    ) -> Desk<'d, B>
        requires wired { Wired (B.meaning book.now) wires.now }
        requires spread { Spreads (B.meaning book.now) spreads.now }
        requires groups { length domains.old ≡ (B.meaning book.now).groups }
        requires grouped { AllByRecursion (Grouped (B.meaning book.now).groups) (base_of base.now) }
        requires known { Knows base.now index.now }
        requires words { length marks.old ≡ 256 }
        requires places { 2 * (B.meaning book.now).count ≤ length ends.old }
        requires slots { length domains.old ≤ length settled.old }
        ensures book { result.book ≡ book.entry }
        ensures base { result.base ≡ base.entry }
        ensures domains { result.domains.ghost_name ≡ domains.entry.ghost_name }
        ensures marks { result.line.marks.ghost_name ≡ marks.entry.ghost_name }
        ensures ends { result.line.ends.places.ghost_name ≡ ends.entry.ghost_name }
        ensures settled { result.settled.places.ghost_name ≡ settled.entry.ghost_name }
        ensures remain { result.domains.now ≡ domains.old }
        ensures laid { Laid (B.meaning book.now) result }
    {
        Desk {
            book,
            wires,
            spreads,
            base,
            index,
            domains,
            line: Line::over(ends, marks, book.count()),
            settled: Ring::over(settled),
        }
    }

    // What remains, written to a region.
    pub fn write(&self, to: &mut [u64])
        requires { length to.old ≡ length self.now.domains.now }
        ensures { to.new ≡ self.now.domains.now }
    {
        to.copy_from_slice(self.domains);
    }
}
