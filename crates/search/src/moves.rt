// The three moves, on the numbers of a search and the lent regions.
ghost use Rattle.std.specs.Prelude.{◌≡◌, ℕ, ◌+◌, ◌*◌, ◌/◌, ◌<◌, ◌≤◌, true, false, ◌++◌, length, take, drop, Some, slice_index, slice_set};
ghost use Rattle.branching.specs.Channels.{Open};
ghost use Rattle.model.specs.Decisions.{reduced};
ghost use Rattle.model.specs.Words.{branch_of, recorded};
ghost use Rattle.search.specs.Branches.{LastTaken};
ghost use Rattle.search.specs.Counts.{Counted};
ghost use Rattle.search.specs.Turns.{closed_at, restarted_at, decided_at, Decides};

use crate::held::Progress;
use crate::recording::record_nogoods;
use branching::{Order, RestartPolicy, pick};
use model::decision::{assignment_word, group_of, refusal_word};

// Close: the decisions after the one taken at `last` go, and that one becomes refused. Answers its group.
pub(crate) fn close(at: &mut Progress, branch: &mut [u32], last: usize) -> u16
    requires last { LastTaken branch.old at.old.branch_len last }
    requires within { at.old.branch_len ≤ length branch.old }
    requires counted { Counted 1 at.old }
    ensures group { result ≡ slice_index branch.old last / 64 }
    ensures numbers { at.new ≡ closed_at last at.old }
    ensures words { branch.new ≡ slice_set branch.old last (slice_index branch.old last + 65536) }
{
    let word = branch[last];
    branch[last] = refusal_word(word);
    at.branch_len = last as u32 + 1;
    at.counts.moves += 1;
    at.counts.closings += 1;
    at.since += 1;
    group_of(word) as u16
}

// Restart: the nogoods of the branch go into the base, the branch is emptied, and the policy moves on.
pub(crate) fn restart<P: RestartPolicy>(
    policy: &mut P,
    at: &mut Progress,
    branch: &[u32],
    base: &mut [u32],
)
    requires within { at.old.branch_len ≤ length branch.now }
    requires few { at.old.branch_len ≤ 12800 }
    requires room { at.old.base_used + length (recorded (reduced (branch_of branch.now at.old.branch_len))) ≤ length base.old }
    requires short { length base.old ≤ 65536 }
    requires counted { Counted 1 at.old }
    ensures numbers { at.new ≡ restarted_at branch.now at.old }
    ensures words { base.new ≡ take at.old.base_used base.old ++ (recorded (reduced (branch_of branch.now at.old.branch_len)) ++ drop at.new.base_used base.old) }
    ensures policy { P.held policy.new ≡ P.meaning.next (P.held policy.old) }
{
    let branch = &branch[..at.branch_len as usize];
    let used = record_nogoods(base, at.base_used as usize, branch);
    policy.advance();
    at.base_used = used as u32;
    at.branch_len = 0;
    at.counts.moves += 1;
    at.counts.restarts += 1;
    at.since = 0;
}

// Decide: the group and channel that the order answers are taken. Answers the group.
pub(crate) fn decide<O: Order>(
    order: &mut O,
    at: &mut Progress,
    domains: &[u64],
    branch: &mut [u32],
) -> u16
    requires groups { length domains.now ≤ 200 }
    requires wide { (g : ℕ) × Open domains.now g }
    requires room { at.old.branch_len < length branch.old }
    requires few { at.old.branch_len < 12800 }
    requires counted { Counted 1 at.old }
    ensures group { result ≡ slice_index branch.new at.old.branch_len / 64 }
    ensures below { result < length domains.now }
    ensures decides { Decides O.meaning (O.held order.old) (O.held order.new) domains.now at.old at.new branch.old branch.new }
{
    let (group, channel) = pick(order, domains).unwrap();
    branch[at.branch_len as usize] = assignment_word(group, channel);
    at.branch_len += 1;
    at.counts.moves += 1;
    group
}

// Whether some group keeps two or more channels.
pub(crate) fn some_wide(domains: &[u64]) -> bool
    ensures yes { result ≡ true → (g : ℕ) × Open domains.now g }
    ensures no { result ≡ false → (g : ℕ) → Open domains.now g → ⊥ }
{
    domains.iter().any(|domain| domain.count_ones() >= 2)
}
