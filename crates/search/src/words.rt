// What the words of a branch say: its last decision taken, and the space that its nogoods want.
ghost use Rattle.std.specs.Prelude.{◌≡◌, ◌+◌, ◌*◌, ◌≤◌, [], length, nat_le, nat_lt, MatchOption};
ghost use Rattle.model.specs.Decisions.{takens, reduced};
ghost use Rattle.model.specs.Words.{branch_of, recorded};
ghost use Rattle.search.specs.Branches.{LastTaken};

use crate::held::Progress;
use model::decision::Decision;

// Whether the word says that an assignment is taken.
pub(crate) fn is_taken(word: u32) -> bool
    ensures { result ≡ nat_lt word 65536 }
{
    matches!(Decision::from(word), Decision::Taken(_))
}

// The place of the last decision taken.
pub(crate) fn last_taken(branch: &[u32]) -> Option<usize>
    ensures { MatchOption result (takens (branch_of branch.now (length branch.now)) ≡ []) (λ j. LastTaken branch.now (length branch.now) j) }
{
    branch.iter().rposition(|word| is_taken(*word))
}

// How many words the reduced nogoods of the branch take in the base.
pub fn words_needed(branch: &[u32]) -> usize
    requires few { length branch.now ≤ 12800 }
    ensures words { result ≡ length (recorded (reduced (branch_of branch.now (length branch.now)))) }
    ensures most { result ≤ 12802 * length branch.now }
{
    let mut taken = 0usize;
    let mut words = 0usize;
    for word in branch {
        match Decision::from(*word) {
            Decision::Taken(_) => taken += 1,
            Decision::Refused(_) => words += taken + 2,
        }
    }
    words
}

// Whether the base has the space for the reduced nogoods of the branch, after its used words.
pub(crate) fn has_space(at: &Progress, branch: &[u32], base: &[u32]) -> bool
    requires within { at.now.branch_len ≤ length branch.now }
    requires few { at.now.branch_len ≤ 12800 }
    requires used { at.now.base_used ≤ length base.now }
    ensures { result ≡ nat_le (at.now.base_used + length (recorded (reduced (branch_of branch.now at.now.branch_len)))) (length base.now) }
{
    words_needed(&branch[..at.branch_len as usize]) <= base.len() - at.base_used as usize
}
