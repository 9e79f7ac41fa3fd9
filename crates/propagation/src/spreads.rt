// How far two channels of a group have to be apart for every channel across from it to go with one of them.
ghost use Rattle.std.specs.Prelude.{◌≡◌, ℕ, ◌+◌, ◌<◌, ◌≤◌, ◌≢◌, ◌⊎◌, length, slice_index};
ghost use Rattle.propagation.specs.Spreads.{SpreadsBelow, Spreads};

use rules::book::RuleBook;

// Group `g` needs at least `w`.
pub fn widen(spreads: &mut [u32], g: u16, w: u32)
    requires { g < length spreads.old }
    ensures more { (h : ℕ) → slice_index spreads.old h ≤ slice_index spreads.new h }
    ensures here { w ≤ slice_index spreads.new g }
    ensures no_more { (slice_index spreads.new g ≡ w) ⊎ (slice_index spreads.new g ≡ slice_index spreads.old g) }
    ensures others { (h : ℕ) → h ≢ g → slice_index spreads.new h ≡ slice_index spreads.old h }
{
    let g = g as usize;
    spreads[g] = spreads[g].max(w);
}

// What both groups of a rule need, where it has any.
pub fn spread_rule<B: RuleBook>(book: &B, spreads: &mut [u32], i: u32)
    requires size { length spreads.old ≡ 200 }
    requires groups { (B.meaning book.now).groups ≤ 200 }
    requires before { SpreadsBelow (B.meaning book.now) i spreads.old }
    ensures { SpreadsBelow (B.meaning book.now) (i + 1) spreads.new }
{
    if let Some((first, second)) = book.ends(i) {
        widen(spreads, second, book.spread(i, false));
        widen(spreads, first, book.spread(i, true));
    }
}

// All rules of the book, over places that say nothing yet.
pub fn spread<B: RuleBook>(book: &B, spreads: &mut [u32])
    requires size { length spreads.old ≡ 200 }
    requires groups { (B.meaning book.now).groups ≤ 200 }
    requires blank { (g : ℕ) → slice_index spreads.old g ≡ 0 }
    ensures { Spreads (B.meaning book.now) spreads.new }
{
    // Rules have numbers and no list to go over.
    for i in 0..book.count() {
        spread_rule(book, spreads, i);
    }
}
