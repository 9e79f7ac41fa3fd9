// The check of a plan against the lists and a book.
ghost use Rattle.std.specs.Prelude.{◌≡◌, ◌<◌, length, OnOk, slice_index};
ghost use Rattle.rules.specs.Checks.{lowest, counts_fit, unlisted, broken as broken_at, Checked};
ghost use Rattle.rules.specs.Plans.{Plan};

use super::book::RuleBook;
use super::channels::has_channel;
use super::refusal::Refusal;

// Whether the numbers of groups, rules and plan bytes fit each other and their limits.
fn counts_match<B: RuleBook>(lists: &[u64], book: &B, plan: &[u8]) -> bool
    ensures { result ≡ counts_fit lists.now (B.meaning book.now) plan.now }
{
    let n = lists.len();
    (1..=200).contains(&n)
        && usize::from(book.groups()) == n
        && book.count() <= 4096
        && plan.len() == n
}

// The lowest group whose channel is not in its list.
fn first_unlisted(lists: &[u64], plan: &[u8]) -> Option<usize>
    requires { length plan.now ≡ length lists.now }
    ensures { result ≡ lowest (unlisted lists.now plan.now) (length lists.now) }
{
    lists
        .iter()
        .zip(plan)
        .position(|(list, channel)| !has_channel(*list, *channel))
}

// Whether a rule binds and does not permit the channels of its two groups, in their order.
fn breaks<B: RuleBook>(book: &B, plan: &[u8], rule: u32) -> bool
    requires { (B.meaning book.now).groups ≡ length plan.now }
    ensures { result ≡ broken_at (B.meaning book.now) plan.now rule }
{
    let Some((g, h)) = book.ends(rule) else {
        return false;
    };
    !book.permits(rule, plan[usize::from(g)], plan[usize::from(h)])
}

// The lowest rule that the plan breaks.
fn first_broken<B: RuleBook>(book: &B, plan: &[u8]) -> Option<u32>
    requires { (B.meaning book.now).groups ≡ length plan.now }
    ensures { result ≡ lowest (broken_at (B.meaning book.now) plan.now) (B.meaning book.now).count }
{
    (0..book.count()).find(|&rule| breaks(book, plan, rule))
}

// Whether the bytes, one a group, are a plan of the lists and the book, or the first refusal: the counts,
// the lowest group whose channel is not listed, the lowest rule broken.
pub fn check<B: RuleBook>(lists: &[u64], book: &B, plan: &[u8]) -> Result<(), Refusal>
    ensures answer { Checked lists.now (B.meaning book.now) plan.now result }
    ensures plan { OnOk result (Plan lists.now (B.meaning book.now) plan.now) }
{
    if !counts_match(lists, book, plan) {
        return Err(Refusal::Counts);
    }
    if let Some(group) = first_unlisted(lists, plan) {
        return Err(Refusal::NotListed(group));
    }
    if let Some(rule) = first_broken(book, plan) {
        return Err(Refusal::RuleBroken(rule as usize));
    }
    Ok(())
}
