// Bytes that lie in one page that is in a slot, as those of most calls do. What a call does there is done at once, with no loop
// over pages; elsewhere nothing is done, and the call goes on.
ghost use Rattle.std.specs.Prelude.{◌≡◌, ◌<◌, ◌≤◌, length, IfSome};
ghost use Rattle.memory.specs.Lent.{read_in, seen, SameSlices, bytes_of};
ghost use Rattle.memory.specs.Inner.{Spot, StoreHere, LoadHere};

use super::storage::{Bytes, Lent, Storage, slot_of};
use super::{Memory, PAGE};
use bits::RISCV_PAGESIZE;

impl Memory {
    // The slot of the page that n bytes from an address on lie in, where the lengths are right, the bytes are in one page, and it has
    // a slot in use.
    #[inline(always)]
    fn slot_here(self, lent: Lent, address: u64, n: usize) -> Option<usize>
        ensures { IfSome result (λ slot. (slot < self.used) × Spot lent.entry.slots.now (length lent.entry.flags.now) (length lent.entry.area.now) self address n slot) }
    {
        // First, as a store that goes on looks at the lengths once more.
        if n > RISCV_PAGESIZE - (address % PAGE) as usize {
            return None;
        }
        if !lent.fits(self) {
            return None;
        }
        let slot = slot_of(lent.slots, (address / PAGE) as usize);
        if slot < self.used as usize {
            Some(slot)
        } else {
            None
        }
    }

    // Stores bytes, if there are any, in a page whose flag has no bit of `mask`, which is a flag's own bits, 0 for any
    // page; whether it did. A closure for the two callers is no plainer.
    #[inline(always)]
    pub(crate) fn store_here(
        self,
        storage: &mut Storage,
        bytes: Bytes,
        address: u64,
        mask: u8,
    ) -> bool
        ensures value { StoreHere result mask (seen storage.old self) (seen storage.new self) address (bytes_of bytes.entry) }
        ensures same { SameSlices storage.old storage.new }
    {
        let n = bytes.len();
        if n == 0 {
            return false;
        }
        let Some(slot) = self.slot_here(storage.lent(), address, n) else {
            return false;
        };
        let p = (address / PAGE) as usize;
        if storage.flags[p] & mask != 0 {
            return false;
        }
        storage.write(p, slot, (address % PAGE) as usize, bytes);
        true
    }

    // The number in n bytes from an address on.
    #[inline(always)]
    pub(crate) fn load_here(self, lent: Lent, address: u64, n: usize) -> Option<u64>
        requires { (0 < n) × (n ≤ 8) }
        ensures { IfSome result (λ v. LoadHere v (read_in lent.entry self) address n) }
    {
        let slot = self.slot_here(lent, address, n)?;
        let start = slot * RISCV_PAGESIZE + (address % PAGE) as usize;
        Some(words::read_le(&lent.area[start..start + n], 0, n))
    }
}
