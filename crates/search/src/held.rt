// The searches that a caller holds. An open one is handed on from call to call; a settled one is another type.
ghost use Rattle.std.specs.Prelude.{◌≡◌, ◌*◌, ◌≤◌};
ghost use Rattle.search.specs.Counts.{Counted};

// The moves, closings and restarts made on a search since it was opened.
#[derive(Clone, Copy, Debug, Default, PartialEq, Eq)]
pub struct Counts {
    pub moves: u32,
    pub closings: u32,
    pub restarts: u32,
}

// How far a search has come: the used words of its branch and its base, and its counts. The words lie in regions that are lent call by call.
#[derive(Clone, Copy, Default)]
pub struct Progress {
    pub(crate) branch_len: u32,
    pub(crate) base_used: u32,
    pub(crate) counts: Counts,
    // The closings since the last restart.
    pub(crate) since: u32,
}

// A search that may go on. It is neither Copy nor Drop.
pub struct OpenSearch {
    pub(crate) groups: u16,
    pub(crate) at: Progress,
    ghost sized: { groups ≤ 200 },
    ghost within: { at.branch_len ≤ 64 * groups },
    ghost used: { at.base_used ≤ 65536 },
    // A word, and no ghost field of `Progress`, since definitions make values of it.
    ghost counted: { Counted 0 at },
}

// A search that came to a plan or to "none".
#[derive(Drop)]
pub struct SettledSearch {
    pub(crate) at: Progress,
}

// How a sitting ends.
pub enum Sat {
    Plan(SettledSearch),
    None(SettledSearch),
    Open(OpenSearch),
}

impl Sat {
    ghost use Rattle.search.specs.Ends.{counted, came_to};

    // What was made on the search up to this end.
    pub fn counts(&self) -> Counts
        ensures { result ≡ counted self.now }
    {
        match self {
            Sat::Plan(settled) | Sat::None(settled) => settled.at.counts,
            Sat::Open(search) => search.at.counts,
        }
    }

    // How many words of the branch were used at this end.
    pub fn branch_len(&self) -> u32
        ensures { result ≡ (came_to self.now).branch_len }
    {
        match self {
            Sat::Plan(settled) | Sat::None(settled) => settled.at.branch_len,
            Sat::Open(search) => search.at.branch_len,
        }
    }

    // How many words of the base were used at this end.
    pub fn base_used(&self) -> u32
        ensures { result ≡ (came_to self.now).base_used }
    {
        match self {
            Sat::Plan(settled) | Sat::None(settled) => settled.at.base_used,
            Sat::Open(search) => search.at.base_used,
        }
    }
}

impl OpenSearch {
    // What was made on the search so far.
    pub fn counts(&self) -> Counts
        ensures { result ≡ self.now.at.counts }
    {
        self.at.counts
    }

    // How many words of the branch are used.
    pub fn branch_len(&self) -> u32
        ensures { result ≡ self.now.at.branch_len }
    {
        self.at.branch_len
    }

    // How many words of the base are used.
    pub fn base_used(&self) -> u32
        ensures { result ≡ self.now.at.base_used }
    {
        self.at.base_used
    }

    // Gives the search up. What was closed is lost with it, and nothing is said of a plan.
    pub fn leave(self) -> Counts
        ensures { result ≡ self.at.counts }
    {
        let OpenSearch { groups: _, at } = self;
        at.counts
    }
}

impl SettledSearch {
    // What was made on the search.
    pub fn counts(&self) -> Counts
        ensures { result ≡ self.now.at.counts }
    {
        let SettledSearch { at } = self;
        at.counts
    }
}
