// Where the work starts: the lists after the decisions.
ghost use Rattle.std.specs.Prelude.{◌≡◌, ℕ, ◌<◌, true, false, ◌&&◌, length, Decides, ◌==◌, slice_index, slice_set};
ghost use Rattle.rules.specs.Channels.{has};
ghost use Rattle.model.specs.Masks.{grp};
ghost use Rattle.model.specs.Decisions.{word as assigned};
ghost use Rattle.model.specs.Words.{decision};
ghost use Rattle.model.specs.Remains.{family, Obeys, Alive};
ghost use Rattle.propagation.specs.Branches.{GroupsBelow, ObeysAll};
ghost use Rattle.propagation.specs.Supports.{Inside, StillWithin};
ghost use Rattle.propagation.specs.Settling.{Emptied};

use model::decision::{Decision, channel_of, group_of};
use rules::bits::without;
use rules::channels::has_channel;

// The set with no channel but `c`.
pub fn alone(set: u64, c: u8) -> u64
    requires { c < 64 }
    ensures { (j : ℕ) → has result j ≡ (has set j && j == c) }
{
    if has_channel(set, c) { 1 << c } else { 0 }
}

// The group of the decision of a word of the branch, and the channels that are left to it.
pub fn left_by(domains: &[u64], word: u32) -> (usize, u64)
    requires { grp (assigned (decision word)) < length domains.now }
    ensures group { result.0 ≡ grp (assigned (decision word)) }
    ensures inside { (j : ℕ) → has result.1 j ≡ true → has (slice_index domains.now result.0) j ≡ true }
    ensures obeys { Obeys (family (slice_set domains.now result.0 result.1)) (decision word) }
    ensures within { StillWithin (λ k. Obeys k (decision word)) domains.now (slice_set domains.now result.0 result.1) }
{
    match Decision::from(word) {
        Decision::Taken(v) => {
            let g = group_of(v);
            (g, alone(domains[g], channel_of(v)))
        }
        Decision::Refused(v) => {
            let g = group_of(v);
            (g, without(domains[g], channel_of(v)))
        }
    }
}

// The decision of a word of the branch.
pub fn decide(domains: &mut [u64], word: u32)
    requires { grp (assigned (decision word)) < length domains.old }
    ensures inside { Inside (family domains.new) (family domains.old) }
    ensures obeys { Obeys (family domains.new) (decision word) }
    ensures within { StillWithin (λ k. Obeys k (decision word)) domains.old domains.new }
{
    let (g, keeps) = left_by(domains, word);
    domains[g] = keeps;
}

// All decisions of the branch.
pub fn decide_all(domains: &mut [u64], branch: &[u32])
    requires { GroupsBelow (length domains.old) branch.now }
    ensures inside { Inside (family domains.new) (family domains.old) }
    ensures obeys { ObeysAll branch.now (family domains.new) }
    ensures within { StillWithin (ObeysAll branch.now) domains.old domains.new }
{
    for &word in branch {
        decide(domains, word);
    }
}

// Whether some group keeps nothing.
pub fn some_empty(domains: &[u64]) -> bool
    ensures empty { Decides result (Emptied domains.now) }
    ensures alive { result ≡ false → Alive domains.now (family domains.now) }
{
    domains.contains(&0)
}
