// What remained before decisions of the branch, so that a close can go on from there.
ghost use Rattle.std.specs.Prelude.{◌≡◌, ℕ, ◌<◌, ◌≤◌, ◌≢◌, true, false, length, Some, None};
ghost use Rattle.search.specs.Families.{place, kept};

// Families of a sitting, each kept for the group that the decision took, with the decision's place on the branch. They lie in arrays,
// since nothing here has a heap.
#[derive(Drop)]
pub(crate) struct Befores {
    places: [Option<u16>; 200],
    families: [[u64; 200]; 200],
    // Whether the domains are what remained before the newest decision.
    pub(crate) ready: bool,
}

impl Befores {
    pub fn new() -> Befores
        ensures none { (g : ℕ) → place result g ≡ None }
        ensures unready { result.ready ≡ false }
    {
        Befores {
            places: [None; 200],
            families: [[0; 200]; 200],
            ready: false,
        }
    }

    // The domains are what remained before the decision of group `g` at a place: they are kept.
    pub fn keep(&mut self, g: u16, at: u16, domains: &[u64])
        requires group { g < 200 }
        requires short { length domains.now ≤ 200 }
        ensures ready { self.new.ready ≡ true }
        ensures at { place self.new g ≡ Some at }
        ensures kept { kept (length domains.now) self.new g ≡ domains.now }
        ensures others { (h : ℕ) → h ≢ g → (place self.new h ≡ place self.old h) × ((n : ℕ) → kept n self.new h ≡ kept n self.old h) }
    {
        let mut family = [0; 200];
        family[..domains.len()].copy_from_slice(domains);
        self.families[g as usize] = family;
        self.places[g as usize] = Some(at);
        self.ready = true;
    }

    // What is kept for the decision of group `g` at a place goes back into the domains, where it is.
    fn restore(&self, g: u16, at: u16, domains: &mut [u64]) -> bool
        requires group { g < 200 }
        requires short { length domains.old ≤ 200 }
        ensures { result ≡ true → (place self.now g ≡ Some at) × (domains.new ≡ kept (length domains.old) self.now g) }
    {
        if self.places[g as usize] != Some(at) {
            return false;
        }
        let Some(family) = self.families[g as usize].get(..domains.len()) else {
            return false;
        };
        domains.copy_from_slice(family);
        true
    }

    // The families from a place on are forgotten.
    fn forget(&mut self, from: u16)
        ensures fewer { (g q : ℕ) → g < 200 → place self.new g ≡ Some q → (place self.old g ≡ Some q) × (q < from) }
        ensures kept { (n g : ℕ) → kept n self.new g ≡ kept n self.old g }
        ensures ready { self.new.ready ≡ self.old.ready }
    {
        for g in 0..200usize {
            if self.places[g].is_some_and(|at| at >= from) {
                self.places[g] = None;
            }
        }
    }

    // The decision of group `g` at a place is closed: what remained before it goes into the domains, where it is kept.
    pub fn back(&mut self, g: u16, at: u16, domains: &mut [u64])
        requires group { g < 200 }
        requires short { length domains.old ≤ 200 }
        ensures ready { self.new.ready ≡ true → (place self.old g ≡ Some at) × (domains.new ≡ kept (length domains.old) self.old g) }
        ensures fewer { (h q : ℕ) → h < 200 → place self.new h ≡ Some q → (place self.old h ≡ Some q) × (q < at) }
        ensures kept { (n h : ℕ) → kept n self.new h ≡ kept n self.old h }
    {
        self.ready = self.restore(g, at, domains);
        self.forget(at);
    }

    // The branch is empty: nothing is kept.
    pub fn clear(&mut self)
        ensures none { (g : ℕ) → place self.new g ≡ None }
        ensures unready { self.new.ready ≡ false }
    {
        self.places = [None; 200];
        self.ready = false;
    }
}
