// The members of a set of arrows, one after another.
ghost use Rattle.std.specs.Prelude.{◌≡◌};
ghost use Rattle.std.specs.Iterator.{YieldsFirst, item_count};
ghost use Rattle.fin_category.specs.Masks.{members};
ghost use Rattle.fin_category.specs.ArrowSets.{left_in};

/// The arrows of a set, in rising order.
#[derive(Drop)]
pub struct ArrowIter {
    words: [u64; 8],
}

impl ArrowIter {
    // Over the set of these words.
    pub(crate) fn over(words: [u64; 8]) -> ArrowIter
        ensures { left_in result ≡ members words }
    {
        ArrowIter { words }
    }
}

impl Iterator for ArrowIter {
    type Item = u32;

    ghost next_gives = { YieldsFirst left_in };

    ghost remaining = { item_count left_in };

    fn next(&mut self) -> Option<u32> {
        for i in 0..8 {
            let word = self.words[i];
            if word != 0 {
                let bit = word.trailing_zeros();
                self.words[i] = word & !(1 << bit);
                return Some(i as u32 * 64 + bit);
            }
        }
        None
    }
}
