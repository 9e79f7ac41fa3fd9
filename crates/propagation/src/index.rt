// The nogoods of a base by their assignments, so that those that have an assignment are found without a look at every nogood.
ghost use Rattle.std.specs.Prelude.{◌≡◌, ℕ, ◌+◌, ◌<◌, ◌≤◌, List, [], None, length, take, slice_index, slice_index_or};
ghost use Rattle.std.specs.List.{AllByRecursion};
ghost use Rattle.model.specs.Words.{recorded, base_of};
ghost use Rattle.propagation.specs.Bases.{Grouped};
ghost use Rattle.propagation.specs.Indexed.{Starts, Stands, Indexed, Knows};

// For each assignment the last place of the base where it stands. For each place where one stands, the place before it with the same
// assignment, and where its nogood starts. They lie in arrays, since nothing here has a heap.
#[derive(Drop)]
pub struct Index {
    heads: [Option<u16>; 12800],
    links: [Option<u16>; 65536],
    starts: [u16; 65536],
}

impl Index {
    // Of a base that has nothing.
    pub fn new() -> Index
        ensures known { Knows [] result }
        ensures heads { (v : ℕ) → slice_index_or result.heads v None ≡ None }
        ensures links { (p : ℕ) → slice_index_or result.links p None ≡ None }
        ensures starts { (p : ℕ) → slice_index result.starts p ≡ 0 }
    {
        Index {
            heads: [None; 12800],
            links: [None; 65536],
            starts: [0; 65536],
        }
    }

    // The assignment at place `p`, of the nogood that starts at `s`, goes in front of its chain.
    fn link(&mut self, base: &[u32], s: usize, p: usize)
        requires within { p < length base.now }
        requires short { length base.now ≤ 65536 }
        requires stands { Stands (base_of base.now) s (slice_index base.now p) p }
        requires small { slice_index base.now p < 12800 }
        requires before { Indexed (base_of base.now) p self.old }
        ensures { Indexed (base_of base.now) (p + 1) self.new }
    {
        let v = base[p] as usize;
        self.links[p] = self.heads[v];
        self.heads[v] = Some(p as u16);
        self.starts[p] = s as u16;
    }

    // All assignments of the nogood that starts at `s`.
    fn link_all(&mut self, base: &[u32], s: usize)
        requires whole { base.now ≡ recorded (base_of base.now) }
        requires short { length base.now ≤ 65536 }
        requires grouped { AllByRecursion (Grouped 200) (base_of base.now) }
        requires starts { (n : List ℕ) × Starts (base_of base.now) s n }
        requires before { Indexed (base_of base.now) s self.old }
        ensures { Indexed (base_of base.now) (s + 1 + slice_index base.now s) self.new }
    {
        let end = s + 1 + base[s] as usize;
        for p in s + 1..end {
            self.link(base, s, p);
        }
    }

    // The nogoods from the place `from` on, behind those that the index has.
    pub fn add(&mut self, base: &[u32], from: usize)
        requires within { from ≤ length base.now }
        requires short { length base.now ≤ 65536 }
        requires whole { base.now ≡ recorded (base_of base.now) }
        requires grouped { AllByRecursion (Grouped 200) (base_of base.now) }
        requires before { Knows (take from base.now) self.old }
        ensures { Knows base.now self.new }
    {
        let mut s = from;
        while s < base.len() {
            self.link_all(base, s);
            s += 1 + base[s] as usize;
        }
    }

    // The last place where the assignment stands.
    pub fn last(&self, v: u32) -> Option<u16>
        ensures { result ≡ slice_index_or self.now.heads v None }
    {
        self.heads.get(v as usize).copied().flatten()
    }

    // The place before `p` with the assignment that stands there.
    pub fn before(&self, p: u16) -> Option<u16>
        ensures { result ≡ slice_index_or self.now.links p None }
    {
        self.links[p as usize]
    }

    // The nogood with the assignment at place `p`.
    pub fn nogood<'b>(&self, base: &'b [u32], p: u16) -> &'b [u32]
        requires whole { base.now ≡ recorded (base_of base.now) }
        requires starts { (n : List ℕ) × Starts (base_of base.now) (slice_index self.now.starts p) n }
        ensures { (n : List ℕ) → Starts (base_of base.now) (slice_index self.now.starts p) n → result.now ≡ n }
    {
        // The casts widen; of a `from` the proof would know less.
        let s = self.starts[p as usize] as usize;
        &base[s + 1..s + 1 + base[s] as usize]
    }
}
