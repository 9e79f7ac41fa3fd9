// The memory that a job is loaded into.
ghost use Rattle.std.specs.Prelude.{◌≡◌, ◌+◌, ◌≤◌, vec_len, MatchResult};

use crate::error::PlanError;
use jobs::load::{Loaded, load};
use rules::gap::GapEntry;
use rules::table::TableEntry;
use std::alloc::Global;

// The most groups and the most rules of a job.
const GROUPS: usize = 200;

const RULES: usize = 4096;

// What a job says: its lists, its gaps and its tables.
#[derive(Drop)]
pub struct Store {
    pub lists: Vec<u64>,
    pub gaps: Vec<GapEntry>,
    pub tables: Vec<TableEntry>,
    pub ghost few_lists: { vec_len lists ≤ 200 },
    pub ghost few_gaps: { vec_len gaps ≤ 4096 },
    pub ghost few_tables: { vec_len tables ≤ 4096 },
}

impl Store {
    // These name the struct itself, so they are brought in here and not above it.
    ghost use Rattle.planner.specs.Stores.{numbers, Stored, Unstored};

    // The lists, the gaps and the tables of a job, or its first fault.
    pub fn load(heap: Global, job: &[u8]) -> Result<Store, PlanError>
        ensures { MatchResult result (λ s. Stored job.now s) (λ e. Unstored job.now e) }
    {
        let mut lists = vec![in heap; 0u64; GROUPS]?;
        let mut gaps = vec![in heap; GapEntry::default(); RULES]?;
        let mut tables = vec![in heap; TableEntry::default(); RULES]?;
        let loaded = load(job, &mut lists, &mut gaps, &mut tables)?;
        lists.truncate(usize::from(loaded.groups));
        gaps.truncate(usize::from(loaded.gaps));
        tables.truncate(usize::from(loaded.tables));
        Ok(Store {
            lists,
            gaps,
            tables,
        })
    }

    // The numbers of lists, of gaps and of tables, as a book takes them. There are few, so none is cut short.
    pub fn loaded(&self) -> Loaded
        ensures { result ≡ numbers self.now }
    {
        Loaded {
            groups: self.lists.len() as u16,
            gaps: self.gaps.len() as u16,
            tables: self.tables.len() as u16,
        }
    }

    // How many rules the job has.
    pub(crate) fn rules(&self) -> usize
        ensures { result ≡ vec_len self.now.gaps + vec_len self.now.tables }
    {
        self.gaps.len() + self.tables.len()
    }
}
