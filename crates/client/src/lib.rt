// A small user of the calls: it opens a search, sits on it and sits on it again.
// The uses of a search that the compiler has to turn away are tried on a copy of this file.
#![tactic(auto)]

ghost use Rattle.std.specs.Prelude.{◌≡◌, None, MatchResult};
ghost use Rattle.search.specs.Sittings.{lent_in, Opened, Unopened, Answers};
ghost use Rattle.client.specs.Twice.{SatTwice};

use branching::{Order, RestartPolicy};
use rules::book::RuleBook;
use rules::refusal::Refusal;
use search::calls::{open, sitting};
use search::held::{OpenSearch, Sat};
use search::regions::Regions;

// Opens a search.
pub fn opened<B: RuleBook>(lists: &[u64], book: &B) -> Result<OpenSearch, Refusal>
    ensures { MatchResult result (Opened (B.meaning book.now) lists.now) (Unopened (B.meaning book.now) lists.now) }
{
    open(lists, book)
}

// A sitting, and a second one on the search that the first hands back open.
pub fn sit_twice<B: RuleBook, O: Order, P: RestartPolicy>(
    search: OpenSearch,
    lists: &[u64],
    book: &B,
    order: &mut O,
    policy: &mut P,
    allowance: u32,
    regions: &mut Regions<'_>,
) -> Result<Sat, (Refusal, OpenSearch)>
    ensures { SatTwice O.Order.meaning P.RestartPolicy.meaning O.Order.held P.RestartPolicy.held (B.RuleBook.meaning book.now) lists.now allowance «search» (lent_in regions.old order.old policy.old) (lent_in regions.new order.new policy.new) result }
{
    match sitting(search, lists, book, order, policy, allowance, regions)? {
        // Each settled end has a line of its own, since the first is one of the uses that are tried wrong.
        Sat::Open(next) => sitting(next, lists, book, order, policy, allowance, regions),
        Sat::Plan(done) => Ok(Sat::Plan(done)),
        Sat::None(done) => Ok(Sat::None(done)),
    }
}

// A sitting, and no second one beside it.
pub fn sit_once<B: RuleBook, O: Order, P: RestartPolicy>(
    search: OpenSearch,
    lists: &[u64],
    book: &B,
    order: &mut O,
    policy: &mut P,
    allowance: u32,
    regions: &mut Regions<'_>,
) -> (
    Result<Sat, (Refusal, OpenSearch)>,
    Option<Result<Sat, (Refusal, OpenSearch)>>,
)
    ensures only { Answers O.Order.meaning P.RestartPolicy.meaning O.Order.held P.RestartPolicy.held (B.RuleBook.meaning book.now) «search» lists.now allowance (lent_in regions.old order.old policy.old) (lent_in regions.new order.new policy.new) result.0 }
    ensures no_second { result.1 ≡ None }
{
    let only = sitting(search, lists, book, order, policy, allowance, regions);
    (only, None)
}
