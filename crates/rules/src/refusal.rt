// Why a call is refused: one enum for all calls, each case with its number and its place.
ghost use Rattle.std.specs.Prelude.{◌≡◌};
ghost use Rattle.rules.specs.Refusals.{numbered, placed};

// Two are the same where their numbers and their places are (`refusals_are_told_apart` says so).
#[derive(Clone, Copy, PartialEq, Eq, Debug)]
pub enum Refusal {
    // The input ends in a body, or before an end record.
    InputEnds(usize),
    // A kind above 3.
    UnknownKind(usize),
    // A list is empty: at the offset of its record in a job, of the lowest such group in a call.
    EmptyList(usize),
    // A rule's group has no record yet.
    NoSuchGroup(usize),
    // Both groups of a rule are the same.
    EqualGroups(usize),
    // The counts of the end record are wrong, or there is no group.
    WrongCounts(usize),
    // Bytes after the end record.
    BytesAfterEnd(usize),
    // Group 201, rule 4,097, or one that no place was lent for.
    NoPlace(usize),
    // The counts of groups differ or are not 1 to 200, there are more than 4,096 rules, or a plan has the wrong length.
    Counts,
    // A region is too short, or the base has fewer words than it used, or more than 65,536.
    RegionTooShort,
    // An allowance of 0 or above 1,000,000.
    Allowance,
    // The moves made and allowed would pass 100,000,000.
    TooManyMoves,
    // The branch is not one of listed assignments, none twice and none of a group taken before.
    BranchDisturbed,
    // No closing since the last restart.
    NothingClosed,
    // The base lacks the space for a restart.
    BaseFull,
    // The base is not whole nogoods of listed assignments, none empty and none with a group twice.
    BaseDisturbed,
    // The lowest group of a plan whose channel is not listed.
    NotListed(usize),
    // The lowest rule that a plan breaks.
    RuleBroken(usize),
    // A line has no free place.
    LineFull,
    // The branch has 64 decisions a group already.
    BranchFull,
}

impl Refusal {
    // The number that the refusal is told by.
    pub fn number(&self) -> u8
        ensures { result ≡ numbered self.now }
    {
        match *self {
            Refusal::InputEnds(_) => 1,
            Refusal::UnknownKind(_) => 2,
            Refusal::EmptyList(_) => 3,
            Refusal::NoSuchGroup(_) => 4,
            Refusal::EqualGroups(_) => 5,
            Refusal::WrongCounts(_) => 6,
            Refusal::BytesAfterEnd(_) => 7,
            Refusal::NoPlace(_) => 8,
            Refusal::Counts => 9,
            Refusal::RegionTooShort => 10,
            Refusal::Allowance => 11,
            Refusal::TooManyMoves => 12,
            Refusal::BranchDisturbed => 13,
            Refusal::NothingClosed => 14,
            Refusal::BaseFull => 15,
            Refusal::BaseDisturbed => 16,
            Refusal::NotListed(_) => 17,
            Refusal::RuleBroken(_) => 18,
            Refusal::LineFull => 19,
            Refusal::BranchFull => 20,
        }
    }

    // The place: an offset in a job, a group or a rule, and 0 where there is none.
    pub fn place(&self) -> usize
        ensures { result ≡ placed self.now }
    {
        match *self {
            Refusal::InputEnds(at)
            | Refusal::UnknownKind(at)
            | Refusal::EmptyList(at)
            | Refusal::NoSuchGroup(at)
            | Refusal::EqualGroups(at)
            | Refusal::WrongCounts(at)
            | Refusal::BytesAfterEnd(at)
            | Refusal::NoPlace(at)
            | Refusal::NotListed(at)
            | Refusal::RuleBroken(at) => at,
            _ => 0,
        }
    }
}
