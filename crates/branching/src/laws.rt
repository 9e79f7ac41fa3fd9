// Laws of the two orders, in the words of the field.
ghost use Rattle.branching.specs.Laws.{FewestFirstLaw, LastConflictLaw};

use crate::order::Order;

// Fewest first takes the group with the fewest channels, from two up and the lowest among equals, and the lowest channel of a group.
pub fn fewest_first_takes_the_fewest()
    ensures { FewestFirstLaw }
{}

// Last conflict stays at the groups of the last closings, over an order of any make.
pub fn last_conflict_stays_at_conflicts<O: Order>()
    ensures { LastConflictLaw O.Order.meaning }
{}
