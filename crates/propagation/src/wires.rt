// The rule ends across from each group as chains, so that what a group's loss calls for is found without a look at every rule.
ghost use Rattle.std.specs.Prelude.{◌≡◌, ℕ, ◌+◌, ◌*◌, ◌<◌, ◌≤◌, None, length};
ghost use Rattle.propagation.specs.Chains.{link};
ghost use Rattle.propagation.specs.Wires.{Facing, Chained, Wired};

use rules::book::RuleBook;

// The places of the chains: one for each of 8192 ends, and one for each of 200 groups. They lie in an array, since nothing here has a heap;
// the functions below take a slice of that length, so that a part of a longer region serves as well.
pub const CHAINS: usize = 8392;

// The end numbered `e`, which has group `g` across, goes in front of the group's chain.
pub fn chain<B: RuleBook>(book: &B, wires: &mut [Option<u16>], g: u16, e: u16)
    requires size { length wires.old ≡ 8392 }
    requires group { g < 200 }
    requires end { e < 8192 }
    requires faces { Facing (B.meaning book.now) g e }
    requires before { Chained (B.meaning book.now) e wires.old }
    ensures { Chained (B.meaning book.now) (e + 1) wires.new }
{
    let last = 8192 + usize::from(g);
    wires[usize::from(e)] = wires[last];
    wires[last] = Some(e);
}

// Both ends of a rule, where it has any.
pub fn chain_rule<B: RuleBook>(book: &B, wires: &mut [Option<u16>], i: u32)
    requires size { length wires.old ≡ 8392 }
    requires groups { (B.meaning book.now).groups ≤ 200 }
    requires rule { i < 4096 }
    requires before { Chained (B.meaning book.now) (2 * i) wires.old }
    ensures { Chained (B.meaning book.now) (2 * (i + 1)) wires.new }
{
    if let Some((first, second)) = book.ends(i) {
        let e = 2 * i as u16;
        chain(book, wires, second, e);
        chain(book, wires, first, e + 1);
    }
}

// All rules of the book, over places that say nothing yet.
pub fn wire<B: RuleBook>(book: &B, wires: &mut [Option<u16>])
    requires size { length wires.old ≡ 8392 }
    requires groups { (B.meaning book.now).groups ≤ 200 }
    requires rules { (B.meaning book.now).count ≤ 4096 }
    requires blank { (p : ℕ) → link wires.old p ≡ None }
    ensures { Wired (B.meaning book.now) wires.new }
{
    // Rules have numbers and no list to go over.
    for i in 0..book.count() {
        chain_rule(book, wires, i);
    }
}
