// The words of assignments and of decisions, read and written in one place.
ghost use Rattle.std.specs.Prelude.{◌≡◌, ◌+◌, ◌*◌, ◌<◌};
ghost use Rattle.model.specs.Masks.{grp, chan};
ghost use Rattle.model.specs.Words.{decision};
ghost use Rattle.model.specs.Said.{said, word_of};

// What a word of a branch has more where its assignment is refused.
const REFUSED: u32 = 65536;

// A decision on an assignment, which is given by its word.
#[derive(Clone, Copy, Debug, PartialEq, Eq)]
pub enum Decision {
    Taken(u32),
    Refused(u32),
}

// What a word of a branch says.
impl From<u32> for Decision {
    ghost from_gives = { λ w d. said d ≡ decision w };

    fn from(word: u32) -> Decision {
        if word < REFUSED {
            Decision::Taken(word)
        } else {
            Decision::Refused(word - REFUSED)
        }
    }
}

// The word of a branch that says that an assignment is refused.
pub fn refusal_word(assignment: u32) -> u32
    requires { assignment < 65536 }
    ensures { result ≡ assignment + 65536 }
{
    assignment + REFUSED
}

// The word of an assignment.
pub fn assignment_word(group: u16, channel: u8) -> u32
    ensures { result ≡ word_of group channel }
{
    64 * u32::from(group) + u32::from(channel)
}

// The group of an assignment.
pub fn group_of(assignment: u32) -> usize
    ensures { result ≡ grp assignment }
{
    (assignment / 64) as usize
}

// The channel of an assignment.
pub fn channel_of(assignment: u32) -> u8
    ensures is { result ≡ chan assignment }
    ensures low { result < 64 }
{
    (assignment % 64) as u8
}
