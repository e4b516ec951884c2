// Rows of places behind a raw pointer: they come from an allocator, are lent by runs, and go back to it.
ghost use Rattle.std.specs.Prelude.{◌≡◌, ◌+◌, ◌*◌, ◌^◌, ◌<◌, ◌≤◌, take, drop, IfOk};
ghost use Rattle.std.specs.Mem.{type_size};
ghost use Rattle.std.specs.Mem.Slots.{slots_ptr, slots_len, slots_items, slots_filled};
ghost use Rattle.std.specs.Mem.Slots.Ownership.{Filled};

use core::slots::Slots;
use std::alloc::{AllocError, Allocator};
use std::marker::{Model, PhantomData};
use std::mem::{align_of, size_of};
use std::slice::from_raw_parts;

// The right to give a row of places back. It holds no handle.
pub(crate) struct Lease<T, A: Allocator> {
    ptr: *mut T,
    len: usize,
    by: PhantomData<A>,
    ghost alloc: { A },
}

impl<T, A: Allocator> Model for Lease<T, A> {
    ghost use Rattle.std.specs.Mem.Slots.Ownership.{leased};

    ghost also_owns = { λ l. leased (A.dealloc_token l.alloc) T.row l.ptr l.len };
}

// Where so many empty places begin, the places, and the right to give them back. `_like` only shows that the type has a value.
// `unsafe`, since the values that are written there are forgotten in the end: the caller says that none is to be dropped.
pub(crate) unsafe fn make<T, A: Allocator>(
    alloc: &A,
    len: usize,
    _like: &T,
) -> Result<(*mut T, Slots<T>, Lease<T, A>), AllocError>
    requires small { len * type_size T.row < 2 ^ 63 }
    ensures { IfOk result (λ p. (slots_len p.1 ≡ len) × (p.0 ≡ slots_ptr p.1) × (p.2.ptr ≡ slots_ptr p.1) × (p.2.len ≡ slots_len p.1) × (p.2.alloc ≡ alloc.now)) }
{
    match alloc.allocate(len * size_of::<T>(), align_of::<T>()) {
        Ok(block) => {
            let ptr = block as *mut T;
            let by = PhantomData;
            let slots = Slots::from_raw_parts(ptr, len);
            Ok((ptr, slots, Lease { ptr, len, by }))
        }
        Err(refused) => Err(refused),
    }
}

// A run of places that hold their values, as a slice. `ptr` is where the places begin.
pub(crate) unsafe fn lend<'a, T>(slots: &'a Slots<T>, ptr: *mut T, at: usize, len: usize) -> &'a [T]
    requires { (0 < len) × (at + len ≤ slots_len slots.now) × (ptr ≡ slots_ptr slots.now) × Filled (slots_filled slots.now) at (at + len) }
    ensures { result.now ≡ take len (drop at (slots_items slots.now)) }
{
    from_raw_parts(ptr.add(at), len)
}

// Gives the places back to the allocator that they came from.
pub(crate) unsafe fn free<T, A: Allocator>(alloc: &A, slots: Slots<T>, lease: Lease<T, A>)
    requires { (lease.ptr ≡ slots_ptr slots) × (lease.len ≡ slots_len slots) × (lease.alloc ≡ alloc.now) }
{
    let _parts = slots.into_raw_parts();
    let Lease { ptr, len, by: _ } = lease;
    alloc.deallocate(ptr as *mut u8, len * size_of::<T>(), align_of::<T>());
}
