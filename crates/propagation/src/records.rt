// What waits in lines.
ghost use Rattle.std.specs.Prelude.{◌≡◌};
ghost use Rattle.model.specs.Said.{word_of};

use model::decision::assignment_word;

// One end of a rule: that of its first group, or of its second, which the flag says and nothing else.
#[derive(Clone, Copy, Default)]
pub struct RuleEnd {
    pub rule: u32,
    pub second: bool,
}

// A group with one channel.
#[derive(Clone, Copy, Default)]
pub struct Assignment {
    pub group: u16,
    pub channel: u8,
}

// The word of an assignment.
impl From<Assignment> for u32 {
    ghost from_gives = { λ a w. w ≡ word_of a.group a.channel };

    fn from(a: Assignment) -> u32 {
        assignment_word(a.group, a.channel)
    }
}
