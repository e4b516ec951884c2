// Elements by their numbers.
ghost use Rattle.std.specs.Prelude.{◌≡◌};

/// Elements over the objects of a category, by their numbers: how many there are at each object, and the restriction of each.
pub trait Elements {
    ghost use Rattle.std.specs.Prelude.{ℕ};

    ghost size: { Self → ℕ → ℕ };

    ghost restriction: { Self → ℕ → ℕ → ℕ };

    ghost can_count: { Self → ℕ → Type 0 };

    ghost can_restrict: { Self → ℕ → ℕ → Type 0 };

    /// How many there are at c.
    fn count(&self, c: u32) -> u32
        requires { can_count self.now c }
        ensures { result ≡ size self.now c };

    /// The restriction along f of the element x at its codomain.
    fn restrict(&self, f: u32, x: u32) -> u32
        requires { can_restrict self.now f x }
        ensures { result ≡ restriction self.now f x };
}

/// One element at each object.
#[derive(Drop)]
pub struct OneEach;

impl Elements for OneEach {
    ghost use Rattle.std.specs.Prelude.{⊤};

    ghost size = { λ _ _. 1 };

    ghost restriction = { λ _ _ _. 0 };

    ghost can_count = { λ _ _. ⊤ };

    ghost can_restrict = { λ _ _ _. ⊤ };

    fn count(&self, _c: u32) -> u32 {
        1
    }

    fn restrict(&self, _f: u32, _x: u32) -> u32 {
        0
    }
}
