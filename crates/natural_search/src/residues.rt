// Sets of numbers as words: a bit for each residue modulo 64, so that numbers below 64 are told apart.
ghost use Rattle.std.specs.Prelude.{◌≡◌, ◌<◌, ◌%◌, ◌^◌, ℕ, true, length, get_or, None, IfSome};
ghost use Rattle.natural_search.specs.Domains.{allows};

// The longest row of a restriction that is gone through.
const LONGEST_ROW: usize = 512;

// The set of one number.
pub(crate) fn one(v: usize) -> u64
    ensures { allows result v ≡ true }
{
    1 << (v % 64)
}

// A set with one more number.
pub(crate) fn with(mask: u64, v: usize) -> u64
    ensures new { allows result v ≡ true }
    ensures old { (w : ℕ) → allows mask w ≡ true → allows result w ≡ true }
{
    mask | one(v)
}

// The numbers below the bound.
pub(crate) fn below(bound: u32) -> u64
    ensures { (v : ℕ) → v < bound → allows result v ≡ true }
{
    if bound < 64 {
        (1 << bound) - 1
    } else {
        u64::MAX
    }
}

// A set with the numbers to which a row takes those with a residue.
fn with_images(mask: u64, row: &[u32], residue: usize) -> u64
    requires { residue < 64 }
    ensures old { (v : ℕ) → allows mask v ≡ true → allows result v ≡ true }
    ensures new { (w : ℕ) → w < length row.now → w % 64 ≡ residue → allows result (get_or row.now w 0) ≡ true }
{
    let mut images = mask;
    let mut w = residue;
    'places: while w < row.len() {
        images = with(images, row[w] as usize);
        w += 64;
    }
    images
}

// The numbers to which a row takes those of a set; all, where the row is long.
pub(crate) fn image(row: &[u32], mask: u64) -> u64
    ensures { (w : ℕ) → w < length row.now → allows mask w ≡ true → allows result (get_or row.now w 0) ≡ true }
{
    if LONGEST_ROW < row.len() {
        return u64::MAX;
    }
    let mut image = 0;
    let mut rest = mask;
    'residues: while rest != 0 {
        let residue = rest.trailing_zeros();
        image = with_images(image, row, residue as usize);
        rest = rest & !(1 << residue);
    }
    image
}

// The residue of a set that has exactly one.
pub(crate) fn sole(mask: u64) -> Option<usize>
    ensures some { IfSome result (λ residue. (residue < 64) × (mask ≡ 2 ^ residue)) }
    ensures none { result ≡ None → (residue : ℕ) → residue < 64 → mask ≡ 2 ^ residue → ⊥ }
{
    let residue = mask.trailing_zeros();
    if residue < 64 && mask == 1 << residue {
        Some(residue as usize)
    } else {
        None
    }
}
