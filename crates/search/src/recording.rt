// The nogoods of a branch, written into the base one after another.
ghost use Rattle.std.specs.Prelude.{◌≡◌, ◌+◌, ◌<◌, ◌≤◌, [], ◌∷◌, ◌++◌, length, take, drop};
ghost use Rattle.model.specs.Decisions.{takens, reduced};
ghost use Rattle.model.specs.Words.{branch_of, recorded};
ghost use Rattle.search.specs.Branches.{nogood_of};

use model::decision::Decision;

// Copies the assignments taken on the branch to the front of `rest`. Answers how many.
fn copy_taken(rest: &mut [u32], branch: &[u32]) -> usize
    requires room { length (takens (branch_of branch.now (length branch.now))) ≤ length rest.old }
    ensures count { result ≡ length (takens (branch_of branch.now (length branch.now))) }
    ensures wrote { rest.new ≡ takens (branch_of branch.now (length branch.now)) ++ drop (length (takens (branch_of branch.now (length branch.now)))) rest.old }
{
    // By index: what `iter_mut` leaves of a slice is known by its length alone.
    let mut n = 0usize;
    for word in branch {
        if let Decision::Taken(assignment) = Decision::from(*word) {
            rest[n] = assignment;
            n += 1;
        }
    }
    n
}

// Writes the reduced nogood of an assignment refused on the branch at the front of `rest`: the number of its assignments, then each. Answers the words written.
fn write_nogood(rest: &mut [u32], branch: &[u32], refused: u32) -> usize
    requires few { length branch.now ≤ 12800 }
    requires room { length (nogood_of branch.now refused) < length rest.old }
    ensures words { result ≡ 1 + length (nogood_of branch.now refused) }
    ensures wrote { rest.new ≡ (length (nogood_of branch.now refused) ∷ nogood_of branch.now refused) ++ drop (1 + length (nogood_of branch.now refused)) rest.old }
{
    let n = copy_taken(&mut rest[1..], branch);
    rest[1 + n] = refused;
    rest[0] = n as u32 + 1;
    n + 2
}

// Writes the reduced nogoods of the branch into the base after its used words, in branch order. Answers the words then used.
pub fn record_nogoods(base: &mut [u32], used: usize, branch: &[u32]) -> usize
    requires few { length branch.now ≤ 12800 }
    requires room { used + length (recorded (reduced (branch_of branch.now (length branch.now)))) ≤ length base.old }
    ensures used { result ≡ used + length (recorded (reduced (branch_of branch.now (length branch.now)))) }
    ensures wrote { base.new ≡ take used base.old ++ (recorded (reduced (branch_of branch.now (length branch.now))) ++ drop (used + length (recorded (reduced (branch_of branch.now (length branch.now))))) base.old) }
{
    let mut at = used;
    for (i, word) in branch.iter().enumerate() {
        if let Decision::Refused(assignment) = Decision::from(*word) {
            at += write_nogood(&mut base[at..], &branch[..i], assignment);
        }
    }
    at
}
