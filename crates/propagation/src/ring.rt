// A line of records over lent places.
ghost use Rattle.std.specs.Prelude.{◌≡◌, ◌-◌, ◌<◌, ◌≤◌, [], ◌∷◌, ◌++◌, length, MatchOption, MatchResult};
ghost use Rattle.rules.specs.Refusals.{told};
ghost use Rattle.rules.specs.declared.refusal.Refusal.TheVariants.{LineFull};

use rules::refusal::Refusal;

// A line over lent places: the oldest first, freed places used again.
// The places are lent, so the head and the length are kept beside them. The head is one of the places, or 0 where there are none.
#[derive(Drop)]
pub struct Ring<'a, T> {
    places: &'a mut [T],
    head: usize,
    len: usize,
    ghost inside: { head ≤ length places.now - 1 },
    ghost fits: { len ≤ length places.now },
}

// The record that found no free place, given back.
#[derive(Clone, Copy)]
pub struct Full<T> {
    pub record: T,
}

// The refusal of a line with no free place: number 19, told with place 0.
impl<T: Drop> From<Full<T>> for Refusal {
    ghost from_gives = { λ _ r. (r ≡ LineFull) × (told r ≡ (19, 0)) };

    fn from(_: Full<T>) -> Refusal {
        Refusal::LineFull
    }
}

impl<'a, T: Copy> Ring<'a, T> {
    ghost use Rattle.propagation.specs.Waiting.{queued, size};

    pub fn over(places: &'a mut [T]) -> Ring<'a, T>
        ensures held { result.places.ghost_name ≡ places.entry.ghost_name }
        ensures sized { result.places.now ≡ places.old }
        ensures empty { queued result ≡ [] }
    {
        Ring {
            places,
            head: 0,
            len: 0,
        }
    }

    // Appends `x`. Where no place is free it gives `x` back inside `Full`, which converts into refusal 19, and the line stays as it was.
    pub fn push(&mut self, x: T) -> Result<(), Full<T>>
        ensures held { self.new.places.ghost_name ≡ self.old.places.ghost_name }
        ensures sized { size self.new ≡ size self.old }
        ensures line { MatchResult result (λ _. (length (queued self.old) < size self.old) × (queued self.new ≡ queued self.old ++ (x ∷ []))) (λ e. (e.record ≡ x) × (length (queued self.old) ≡ size self.old) × (self.new ≡ self.old)) }
    {
        let n = self.places.len();
        if self.len == n {
            return Err(Full { record: x });
        }
        let room = n - self.head;
        let at = if self.len < room {
            self.head + self.len
        } else {
            self.len - room
        };
        self.places[at] = x;
        self.len += 1;
        Ok(())
    }

    // How many wait.
    pub fn len(&self) -> usize
        ensures { result ≡ length (queued self.now) }
    {
        self.len
    }

    // Takes the oldest.
    pub fn pop(&mut self) -> Option<T>
        ensures held { self.new.places.ghost_name ≡ self.old.places.ghost_name }
        ensures sized { size self.new ≡ size self.old }
        ensures line { MatchOption result ((queued self.old ≡ []) × (self.new ≡ self.old)) (λ x. queued self.old ≡ x ∷ queued self.new) }
    {
        if self.len == 0 {
            return None;
        }
        let x = self.places[self.head];
        let next = self.head + 1;
        self.head = if next < self.places.len() { next } else { 0 };
        self.len -= 1;
        Some(x)
    }
}
