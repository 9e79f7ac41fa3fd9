// The words of a base, read nogood by nogood.
ghost use Rattle.std.specs.Iterator.{item_count};
ghost use Rattle.model.specs.Words.{base_of};
ghost use Rattle.model.specs.Nogoods.{GivesNogood};

// The nogoods that the words hold, each with the number that stands before it: of how many assignments it should be.
// The last has fewer where the words end before it does.
#[derive(Drop)]
pub struct Nogoods<'a>(pub &'a [u32]);

impl<'a> Iterator for Nogoods<'a> {
    type Item = (u32, &'a [u32]);

    ghost next_gives = { GivesNogood };

    ghost remaining = { item_count (λ s. base_of s.0.now) };

    fn next(&mut self) -> Option<(u32, &'a [u32])> {
        let (count, words) = self.0.split_first()?;
        let (nogood, rest) = words.split_at(words.len().min(*count as usize));
        self.0 = rest;
        Some((*count, nogood))
    }
}
