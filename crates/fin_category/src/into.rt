// The arrows into an object, as a set.
ghost use Rattle.std.specs.Prelude.{◌≡◌, ◌<◌};
ghost use Rattle.topos_model.specs.categories.Category.{into};
ghost use Rattle.fin_category.specs.ArrowSets.{arrows_in};

use crate::{ArrowMask, Cat};

impl Cat {
    /// The arrows into c, as a set.
    pub fn into(&self, c: u32) -> ArrowMask
        requires { c < self.now.objects }
        ensures { arrows_in result ≡ into self.now c }
    {
        self.laws();
        let mut mask = ArrowMask::empty();
        for f in self.arrows_into(c) {
            mask.insert(*f);
        }
        mask
    }
}
