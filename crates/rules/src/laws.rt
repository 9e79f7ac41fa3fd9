// Laws of the books and of the check, in the words of the field.
ghost use Rattle.rules.specs.Checks.{CheckFindsPlans};
ghost use Rattle.rules.specs.Laws.{GapBooks, TableBooks, JoinedBooks, OneSpread};
ghost use Rattle.rules.specs.Refusals.{ToldApart};

// A gap book permits two channels exactly where they differ by at least the gap.
pub fn gap_books_keep_channels_apart()
    ensures { GapBooks }
{}

// A table book permits a and b exactly where bit b of row a is set.
pub fn table_books_read_their_rows()
    ensures { TableBooks }
{}

// A joined book has the first's rules before the second's.
pub fn joined_books_keep_both()
    ensures { JoinedBooks }
{}

// A rule has one spread at each end.
pub fn rules_have_one_spread()
    ensures { OneSpread }
{}

// A check answers that a plan fits exactly where it is one, and else the first that is wrong.
pub fn checks_find_plans()
    ensures { CheckFindsPlans }
{}

// Two refusals with the same number and the same place are the same.
pub fn refusals_are_told_apart()
    ensures { ToldApart }
{}
