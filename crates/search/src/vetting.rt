// What a call is refused for, checked in the order of the call, with nothing written.
ghost use Rattle.std.specs.Prelude.{◌≡◌, ℕ, ◌+◌, ◌*◌, ◌<◌, ◌≤◌, true, ◌&&◌, List, [], ◌∷◌, length, take, OnOk, ◌==◌, nat_le, nat_lt};
ghost use Rattle.std.specs.List.{list_all};
ghost use Rattle.rules.specs.Refusals.{numbered, placed};
ghost use Rattle.rules.specs.Channels.{has};
ghost use Rattle.model.specs.Masks.{grp, chan};
ghost use Rattle.model.specs.Decisions.{Decision as Decided, word as assigned};
ghost use Rattle.model.specs.Said.{said};
ghost use Rattle.model.specs.Words.{branch_of};
ghost use Rattle.laws.specs.Words.{listed?, free?, branch?, nogood?, base?};
ghost use Rattle.laws.specs.Requests.{unless, empty_from, open_refusal, sitting_refusal, restart_refusal};
ghost use Rattle.search.specs.Restarts.{recall};
ghost use Rattle.search.specs.Regions.{sizes};
ghost use Rattle.search.specs.Calls.{asking, opening, Vets, FreeFor};

use crate::held::OpenSearch;
use crate::regions::Regions;
use crate::words::{has_space, is_taken};
use model::base::Nogoods;
use model::decision::{Decision, channel_of, group_of};
use rules::bits::without;
use rules::book::RuleBook;
use rules::channels::has_channel;
use rules::refusal::Refusal;

// Whether the regions that a sitting only writes are large enough for so many groups and rules.
fn work_fits(regions: &Regions<'_>, groups: u16, rules: u32) -> bool
    ensures { result ≡ ((nat_le groups (length regions.now.domains.now) && nat_le 256 (length regions.now.marks.now)) && ((nat_le (2 * rules) (length regions.now.ends.now) && nat_le groups (length regions.now.settled.now)) && nat_le groups (length regions.now.plan.now))) }
{
    let n = usize::from(groups);
    (n <= regions.domains.len() && 256 <= regions.marks.len())
        && ((2 * rules as usize <= regions.ends.len() && n <= regions.settled.len())
            && n <= regions.plan.len())
}

// Goes on where a test was passed.
fn refuse_unless(passed: bool, refusal: Refusal) -> Result<(), Refusal>
    requires placeless { placed refusal ≡ 0 }
    ensures vets { Vets result (unless passed (numbered refusal)) }
    ensures passed { OnOk result (passed ≡ true) }
{
    if passed { Ok(()) } else { Err(refusal) }
}

// Whether there are 1 to 200 lists.
fn in_range(lists: &[u64]) -> bool
    ensures { result ≡ (nat_le 1 (length lists.now) && nat_le (length lists.now) 200) }
{
    (1..=200).contains(&lists.len())
}

// Whether the book is for as many groups, with at most 4,096 rules.
fn book_agrees<B: RuleBook>(lists: &[u64], book: &B) -> bool
    ensures { result ≡ ((B.meaning book.now).groups == length lists.now && nat_le (B.meaning book.now).count 4096) }
{
    usize::from(book.groups()) == lists.len() && book.count() <= 4096
}

// Goes on where no list is empty.
fn vet_lists(lists: &[u64]) -> Result<(), Refusal>
    ensures { Vets result (empty_from 0 lists.now) }
{
    match lists.iter().position(|list| *list == 0) {
        Some(group) => Err(Refusal::EmptyList(group)),
        None => Ok(()),
    }
}

// Whether the regions of the branch and the base are large enough, and the base not too large.
fn words_fit(search: &OpenSearch, branch: &[u32], base: &[u32]) -> bool
    ensures { result ≡ ((nat_le «search».now.at.base_used (length base.now) && nat_le (length base.now) 65536) && nat_le (64 * «search».now.groups) (length branch.now)) }
{
    let used = search.at.base_used as usize;
    (used <= base.len() && base.len() <= 65536) && 64 * usize::from(search.groups) <= branch.len()
}

// What of a group's free channels stays free after a decision on one of its assignments.
fn stays_free(free: u64, decision: Decision) -> u64
    ensures { (w : ℕ) → grp w ≡ grp (assigned (said decision)) → has result (chan w) ≡ (has free (chan w) && free? w (said decision ∷ [])) }
{
    match decision {
        Decision::Taken(_) => 0,
        Decision::Refused(assignment) => without(free, channel_of(assignment)),
    }
}

// Makes the decision where its assignment is listed and free, and answers whether it is: `free` has the channels of each group that are.
fn admit(free: &mut [u64], decision: Decision) -> bool
    ensures verdict { (lists : List ℕ) (ds : List Decided) → length lists ≡ length free.old → FreeFor lists free.old ds → result ≡ (listed? lists (assigned (said decision)) && free? (assigned (said decision)) ds) }
    ensures after { result ≡ true → (lists : List ℕ) (ds : List Decided) → length lists ≡ length free.old → FreeFor lists free.old ds → FreeFor lists free.new (said decision ∷ ds) }
{
    let (Decision::Taken(assignment) | Decision::Refused(assignment)) = decision;
    let group = group_of(assignment);
    if group >= free.len() || !has_channel(free[group], channel_of(assignment)) {
        return false;
    }
    free[group] = stays_free(free[group], decision);
    true
}

// Whether the words are decisions on listed assignments, none twice and none of a group taken before. That there are at most 200 lists
// is asked of the slice, here and below: a type for it would go through every call.
fn branch_sound(lists: &[u64], branch: &[u32]) -> bool
    requires few { length lists.now ≤ 200 }
    ensures { result ≡ branch? lists.now (branch_of branch.now (length branch.now)) }
{
    // An array, since nothing here has a heap. A `for`, here and in `base_sound`: with `all` the proof does not close.
    let mut room = [0u64; 200];
    let free = &mut room[..lists.len()];
    free.copy_from_slice(lists);
    for word in branch {
        if !admit(free, Decision::from(*word)) {
            return false;
        }
    }
    true
}

// Whether no word is a refusal.
fn all_taken(words: &[u32]) -> bool
    ensures { result ≡ list_all (λ w. nat_lt w 65536) words.now }
{
    words.iter().all(|word| is_taken(*word))
}

// Whether the words are one or more listed assignments, no two of one group.
fn nogood_sound(lists: &[u64], words: &[u32]) -> bool
    requires few { length lists.now ≤ 200 }
    ensures { result ≡ nogood? lists.now words.now }
{
    !words.is_empty() && all_taken(words) && branch_sound(lists, words)
}

// Whether the words are whole nogoods.
fn base_sound(lists: &[u64], base: &[u32]) -> bool
    requires few { length lists.now ≤ 200 }
    ensures { result ≡ base? lists.now base.now }
{
    for (count, nogood) in Nogoods(base) {
        if nogood.len() < count as usize || !nogood_sound(lists, nogood) {
            return false;
        }
    }
    true
}

// Why an open is refused.
pub(crate) fn vet_open<B: RuleBook>(lists: &[u64], book: &B) -> Result<(), Refusal>
    ensures { Vets result (open_refusal (opening lists.now (B.meaning book.now).groups (B.meaning book.now).count)) }
{
    refuse_unless(in_range(lists) && book_agrees(lists, book), Refusal::Counts)?;
    vet_lists(lists)
}

// Goes on where the branch of a search is sound.
fn vet_branch(search: &OpenSearch, lists: &[u64], branch: &[u32]) -> Result<(), Refusal>
    requires few { length lists.now ≤ 200 }
    requires within { «search».now.at.branch_len ≤ length branch.now }
    ensures { Vets result (unless (branch? lists.now (branch_of branch.now «search».now.at.branch_len)) 13) }
{
    let branch = &branch[..search.at.branch_len as usize];
    refuse_unless(branch_sound(lists, branch), Refusal::BranchDisturbed)
}

// Goes on where the used words of a base are sound.
fn vet_base(search: &OpenSearch, lists: &[u64], base: &[u32]) -> Result<(), Refusal>
    requires few { length lists.now ≤ 200 }
    requires within { «search».now.at.base_used ≤ length base.now }
    ensures { Vets result (unless (base? lists.now (take «search».now.at.base_used base.now)) 16) }
{
    let base = &base[..search.at.base_used as usize];
    refuse_unless(base_sound(lists, base), Refusal::BaseDisturbed)
}

// Why a sitting is refused.
pub(crate) fn vet_sitting<B: RuleBook>(
    search: &OpenSearch,
    lists: &[u64],
    book: &B,
    allowance: u32,
    regions: &Regions<'_>,
) -> Result<(), Refusal>
    ensures { Vets result (sitting_refusal (asking «search».now.groups «search».now.at lists.now (B.meaning book.now).groups (B.meaning book.now).count allowance (sizes regions.now) regions.now.branch.now regions.now.base.now)) }
{
    let as_many = usize::from(search.groups) == lists.len();
    refuse_unless(
        in_range(lists) && (book_agrees(lists, book) && as_many),
        Refusal::Counts,
    )?;
    vet_lists(lists)?;
    let branch = &*regions.branch;
    let base = &*regions.base;
    let fits = words_fit(search, branch, base) && work_fits(regions, search.groups, book.count());
    refuse_unless(fits, Refusal::RegionTooShort)?;
    refuse_unless((1..=1_000_000).contains(&allowance), Refusal::Allowance)?;
    refuse_unless(
        search.at.counts.moves + allowance <= 100_000_000,
        Refusal::TooManyMoves,
    )?;
    vet_branch(search, lists, branch)?;
    vet_base(search, lists, base)?;
    let places = 64 * u32::from(search.groups);
    refuse_unless(search.at.branch_len < places, Refusal::BranchFull)
}

// Why a restart is refused.
pub(crate) fn vet_restart(
    search: &OpenSearch,
    lists: &[u64],
    branch: &[u32],
    base: &[u32],
) -> Result<(), Refusal>
    ensures { Vets result (restart_refusal (recall «search».now lists.now branch.now base.now)) }
{
    let as_many = usize::from(search.groups) == lists.len();
    refuse_unless(in_range(lists) && as_many, Refusal::Counts)?;
    vet_lists(lists)?;
    refuse_unless(words_fit(search, branch, base), Refusal::RegionTooShort)?;
    refuse_unless(search.at.counts.moves < 100_000_000, Refusal::TooManyMoves)?;
    vet_branch(search, lists, branch)?;
    vet_base(search, lists, base)?;
    refuse_unless(search.at.since != 0, Refusal::NothingClosed)?;
    refuse_unless(has_space(&search.at, branch, base), Refusal::BaseFull)
}
