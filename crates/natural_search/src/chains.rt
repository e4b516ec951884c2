// Chains of the indices of a list that have the same key.
ghost use Rattle.std.specs.Prelude.{◌≡◌, ◌<◌, ◌+◌, ◌^◌, ℕ, length, get_or, replicate, IfOk};
ghost use Rattle.natural_search.specs.Squares.{AreChains};

use std::alloc::Global;
use topos_model::{NoMemory, Row};

// For each key one more than the last index that has it, and for each index one more than the last one before it with its key; 0 stands for none.
#[derive(Drop)]
pub(crate) struct Chains {
    pub(crate) heads: Vec<usize>,
    pub(crate) links: Row<usize>,
}

// So many keys without an index.
pub(crate) fn no_heads(alloc: Global, count: usize) -> Result<Vec<usize>, NoMemory>
    ensures { IfOk result (λ heads. heads.items ≡ replicate count 0) }
{
    let mut heads = Vec::new(alloc);
    heads.resize(count, 0)?;
    Ok(heads)
}

impl Chains {
    // The chains of these keys, which are numbers below the count.
    pub(crate) fn of(alloc: Global, count: usize, keys: &[usize]) -> Result<Chains, NoMemory>
        requires { (i : ℕ) → i < length keys.now → get_or keys.now i 0 < count }
        ensures { IfOk result (λ chains. AreChains count keys.now chains.heads.items chains.links) }
    {
        let mut heads = no_heads(alloc, count)?;
        let mut links = Row::new(alloc);
        for i in 0..keys.len() {
            let key = keys[i];
            links.push(heads[key])?;
            heads[key] = i + 1;
        }
        Ok(Chains { heads, links })
    }
}
