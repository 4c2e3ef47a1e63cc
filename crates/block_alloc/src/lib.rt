//! An allocator over one block of memory that a host hands in. It gives the whole block once, and ignores what is given back.
//! So an arena over it has all the memory from the start.
#![tactic(auto)]

ghost use Rattle.std.specs.Prelude.{◌≡◌, ℕ, ◌*◌, ◌/◌, ◌^◌, ◌<◌, ◌≤◌, IfSome};
ghost use base.Fml.{ftrue};
ghost use Rattle.linked_list_allocator.specs.Ownership.{bytes_at};

use bumpalo::Bump;
use std::alloc::{AllocError, Allocator};
use std::cell::Cell;
use std::marker::Model;

/// The bytes of a block: they are aligned to 16, and nothing else uses them.
#[repr(C)]
#[derive(Drop)]
pub struct Room {
    ptr: *mut u8,
    ghost size: { ℕ },
}

impl Model for Room {
    ghost also_owns = { λ r. bytes_at r.ptr r.size };
}

/// Memory that a host hands in, as C passes it: a pointer, and a size in bytes.
///
/// The host must keep what no contract can check. The bytes stay valid and aligned to 16 until the call that took the block
/// has returned. Nothing else reads or writes them, and no second call gets them meanwhile.
#[repr(C)]
#[derive(Drop)]
pub struct HostBlock {
    room: Room,
    size: usize,
    ghost sized: { room.size ≡ size },
}

/// How many bytes of a block an arena may take beyond the room for its values: it rounds up to pages of 4096.
pub const MARGIN: usize = 4160;

/// The allocator. It gives its block to the first request, if the block is fit for it, and loses it otherwise.
#[derive(Drop)]
pub struct OneBlock {
    slot: Cell<Option<HostBlock>>,
}

/// An arena whose only chunk is the block. None if the block has fewer than `MARGIN` bytes, or if the arena doesn't get it.
/// Memory allocated in the arena is never given back, except that the last value can grow in place.
pub fn arena(block: HostBlock) -> Option<Bump<OneBlock>>
    ensures { IfSome result (λ _. MARGIN ≤ block.size) }
{
    let room = block.size.checked_sub(MARGIN)?;
    match Bump::try_with_capacity(OneBlock::new(block), room) {
        Ok(arena) => Some(arena),
        Err(_) => None,
    }
}

impl OneBlock {
    fn new(block: HostBlock) -> OneBlock {
        OneBlock {
            slot: Cell::new(Some(block)),
        }
    }

    // The block's bytes, if they weren't taken yet and are fit for the request. A request that they aren't fit for takes
    // them, too.
    fn take(&self, size: usize, align: usize) -> Option<Room>
        ensures { IfSome result (λ r. (size ≤ r.size / 16 * 16) × (r.size < 2 ^ 63) × (align ≤ 16)) }
    {
        let HostBlock { room, size: held } = self.slot.replace(None)?;
        if align > 16 || size > held / 16 * 16 || held > isize::MAX as usize {
            return None;
        }
        Some(room)
    }
}

unsafe impl Allocator for OneBlock {
    ghost dealloc_token = { λ _ _ _. ftrue };

    fn allocate(&self, size: usize, align: usize) -> Result<*mut u8, AllocError> {
        match self.take(size, align) {
            Some(Room { ptr }) => Ok(ptr),
            None => Err(AllocError),
        }
    }

    unsafe fn deallocate(&self, _ptr: *mut u8, _size: usize, _align: usize) {}
}
