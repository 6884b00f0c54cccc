// The calls that sparse and W^X memory answer each in its own way, as one trait; what a layer says of itself is a program of specs/.
ghost use Rattle.std.specs.Prelude.{◌≡◌, ◌+◌, ◌<◌, ◌≤◌, ℕ, List, length};
ghost use Rattle.outcome.specs.Numbers.{number_of};
ghost use Rattle.words.specs.Bytes.{filled};
ghost use Rattle.words.specs.LittleEndian.{to_le};
ghost use Rattle.program.specs.Program.{run, each};
ghost use Rattle.memory.specs.declared.Memory.{Memory};
ghost use Rattle.memory.specs.Pages.{maximum};
ghost use Rattle.memory.specs.Storage.{Valued, state_of};
ghost use Rattle.memory.specs.Operations.{Call, does};
ghost use Rattle.memory.specs.Sparse.{load_wide, fill_page_data};
ghost use Rattle.memory.specs.WXorX.{in_bounds, init_flag};
ghost use Rattle.memory.specs.Sparse as sparse;
ghost use Rattle.memory.specs.WXorX as wxorx;
ghost use Rattle.memory.specs.Answers.{value_of};
ghost use Rattle.memory.specs.Inner.{Same};
ghost use Rattle.memory.specs.Lent.{seen, read_in, SameSlices, bytes_of, width_of};

use super::storage::{Bytes, Lent, Storage, Width};
use super::{FLAG_EXECUTABLE, FLAG_FREEZED, FLAG_WRITABLE, FLAG_WXORX_BIT, Memory, PAGE};
use outcome::Refusal;

// What a store answers, and the memory's numbers: a store that is refused can have taken slots. By value, and not in a `&mut`
// parameter, they leave the caller's in registers: store64 takes 1.2 times as long else.
#[derive(Clone, Copy)]
pub struct Apart {
    pub outcome: Result<(), Refusal>,
    pub memory: Memory,
}

pub trait Layer {
    // A store of bytes.
    ghost stores: { ℕ → List ℕ → Call ℕ };

    // An execute load of n bytes.
    ghost executes: { ℕ → ℕ → Call Valued };

    // A fill of pages, with their flags.
    ghost inits: { ℕ → ℕ → ℕ → ℕ → List ℕ → Call ℕ };

    // The number in the bytes from an address on, to be executed.
    fn execute_load(memory: Memory, lent: Lent, address: u64, width: Width) -> Result<u64, Refusal>
        ensures { (value_of result, read_in lent.entry memory) ≡ run does (executes (width_of width) address) (read_in lent.entry memory) };

    // Fills pages with zeros, the source and zeros; W^X memory sets their flags first, sparse memory doesn't look at the flag.
    // Address, size and lead go apart, here and below, as C gives them.
    fn init_pages(
        memory: &mut Memory,
        storage: &mut Storage,
        source: &[u8],
        address: u64,
        size: u64,
        flag: u8,
        lead: u64,
    ) -> Result<(), Refusal>
        ensures value { (number_of result, seen storage.new memory.new) ≡ run does (inits address size flag lead source.now) (seen storage.old memory.old) }
        ensures same { SameSlices storage.old storage.new };

    // Stores bytes: at once where they lie in one page that is in a slot and nothing keeps them off it, else page by page.
    fn store(
        memory: &mut Memory,
        storage: &mut Storage,
        address: u64,
        bytes: Bytes,
    ) -> Result<(), Refusal>
        ensures value { (number_of result, seen storage.new memory.new) ≡ run does (stores address (bytes_of bytes.entry)) (seen storage.old memory.old) }
        ensures same { SameSlices storage.old storage.new };

    // Stores `size` bytes of one value.
    fn store_byte(
        memory: &mut Memory,
        storage: &mut Storage,
        address: u64,
        size: u64,
        value: u8,
    ) -> Result<(), Refusal>
        ensures value { (number_of result, seen storage.new memory.new) ≡ run does (stores address (filled size value)) (seen storage.old memory.old) }
        ensures same { SameSlices storage.old storage.new };

    // Stores the low bytes of a number.
    fn store_number(
        memory: &mut Memory,
        storage: &mut Storage,
        address: u64,
        value: u64,
        width: Width,
    ) -> Result<(), Refusal>
        ensures value { (number_of result, seen storage.new memory.new) ≡ run does (stores address (to_le (width_of width) value)) (seen storage.old memory.old) }
        ensures same { SameSlices storage.old storage.new };

    // Stores bytes, page by page.
    fn store_over(
        memory: &mut Memory,
        storage: &mut Storage,
        address: u64,
        bytes: Bytes,
    ) -> Result<(), Refusal>
        ensures value { (number_of result, seen storage.new memory.new) ≡ run does (stores address (bytes_of bytes.entry)) (seen storage.old memory.old) }
        ensures kept { Same memory.old memory.new }
        ensures same { SameSlices storage.old storage.new };

    // The same with the slices apart and the numbers by value, and out of line, so that nothing of a caller's lies in memory. A
    // method: a provided one cannot call a function that is generic over the layer.
    #[inline(never)]
    fn store_apart(
        slots: &mut [u16],
        flags: &mut [u8],
        area: &mut [u8],
        memory: Memory,
        address: u64,
        bytes: Bytes,
    ) -> Apart
        ensures { (number_of result.outcome, state_of slots.new flags.new area.new result.memory) ≡ run does (stores address (bytes_of bytes.entry)) (state_of slots.old flags.old area.old memory) }
    {
        let mut memory = memory;
        let mut storage = Storage { slots, flags, area };
        let outcome = Self::store_over(&mut memory, &mut storage, address, bytes);
        Apart { outcome, memory }
    }

    // Stores bytes.
    fn store_bytes(
        memory: &mut Memory,
        storage: &mut Storage,
        address: u64,
        bytes: &[u8],
    ) -> Result<(), Refusal>
        ensures value { (number_of result, seen storage.new memory.new) ≡ run does (stores address bytes.now) (seen storage.old memory.old) }
        ensures same { SameSlices storage.old storage.new }
    {
        Self::store(memory, storage, address, Bytes::These(bytes))
    }

    // Stores the low byte of a number. These four and the execute loads below keep the names of memory/mod.rs, which
    // docs/PROMISES.md has.
    #[inline]
    fn store8(
        memory: &mut Memory,
        storage: &mut Storage,
        address: u64,
        value: u64,
    ) -> Result<(), Refusal>
        ensures value { (number_of result, seen storage.new memory.new) ≡ run does (stores address (to_le 1 value)) (seen storage.old memory.old) }
        ensures same { SameSlices storage.old storage.new }
    {
        Self::store_number(memory, storage, address, value, Width::One)
    }

    // Stores the low 2 bytes of a number.
    #[inline]
    fn store16(
        memory: &mut Memory,
        storage: &mut Storage,
        address: u64,
        value: u64,
    ) -> Result<(), Refusal>
        ensures value { (number_of result, seen storage.new memory.new) ≡ run does (stores address (to_le 2 value)) (seen storage.old memory.old) }
        ensures same { SameSlices storage.old storage.new }
    {
        Self::store_number(memory, storage, address, value, Width::Two)
    }

    // Stores the low 4 bytes of a number.
    #[inline]
    fn store32(
        memory: &mut Memory,
        storage: &mut Storage,
        address: u64,
        value: u64,
    ) -> Result<(), Refusal>
        ensures value { (number_of result, seen storage.new memory.new) ≡ run does (stores address (to_le 4 value)) (seen storage.old memory.old) }
        ensures same { SameSlices storage.old storage.new }
    {
        Self::store_number(memory, storage, address, value, Width::Four)
    }

    // Stores the 8 bytes of a number.
    #[inline]
    fn store64(
        memory: &mut Memory,
        storage: &mut Storage,
        address: u64,
        value: u64,
    ) -> Result<(), Refusal>
        ensures value { (number_of result, seen storage.new memory.new) ≡ run does (stores address (to_le 8 value)) (seen storage.old memory.old) }
        ensures same { SameSlices storage.old storage.new }
    {
        Self::store_number(memory, storage, address, value, Width::Eight)
    }

    // The 2 bytes at an address as a number, to be executed.
    fn execute_load16(memory: Memory, lent: Lent, address: u64) -> Result<u64, Refusal>
        ensures { (value_of result, read_in lent.entry memory) ≡ run does (executes 2 address) (read_in lent.entry memory) }
    {
        Self::execute_load(memory, lent, address, Width::Two)
    }

    // The 4 bytes at an address as a number, to be executed.
    fn execute_load32(memory: Memory, lent: Lent, address: u64) -> Result<u64, Refusal>
        ensures { (value_of result, read_in lent.entry memory) ≡ run does (executes 4 address) (read_in lent.entry memory) }
    {
        Self::execute_load(memory, lent, address, Width::Four)
    }
}

// Pages in slots, with no check of permission.
#[derive(Clone, Copy)]
pub struct Sparse;

impl Layer for Sparse {
    ghost stores = { sparse.store_bytes };

    ghost executes = { load_wide };

    ghost inits = { λ a size flags lead source. fill_page_data a size lead source };

    #[inline(always)]
    fn execute_load(
        memory: Memory,
        lent: Lent,
        address: u64,
        width: Width,
    ) -> Result<u64, Refusal> {
        memory.load_number(lent, address, width)
    }

    fn init_pages(
        memory: &mut Memory,
        storage: &mut Storage,
        source: &[u8],
        address: u64,
        size: u64,
        _flag: u8,
        lead: u64,
    ) -> Result<(), Refusal> {
        memory.fill_page_data(storage, source, address, size, lead)
    }

    #[inline(always)]
    fn store_over(
        memory: &mut Memory,
        storage: &mut Storage,
        address: u64,
        bytes: Bytes,
    ) -> Result<(), Refusal> {
        if !storage.fits(*memory) {
            return Err(Refusal::BadStorage);
        }
        memory.store_pages(storage, bytes, address / PAGE, (address % PAGE) as usize)
    }

    // This and the two below stand in `WXorX` too: a hint to inline doesn't reach the calls of a provided method, and out of line a
    // store takes 5 ns more.
    #[inline(always)]
    fn store(
        memory: &mut Memory,
        storage: &mut Storage,
        address: u64,
        bytes: Bytes,
    ) -> Result<(), Refusal> {
        if memory.store_here(storage, bytes, address, 0) {
            return Ok(());
        }
        let apart = Self::store_apart(
            storage.slots,
            storage.flags,
            storage.area,
            *memory,
            address,
            bytes,
        );
        *memory = apart.memory;
        apart.outcome
    }

    // Lengths first, so that they are looked at once, and then page by page at once: by way of `store_apart` a store over a page's end
    // takes 1.5 times as long.
    #[inline(always)]
    fn store_byte(
        memory: &mut Memory,
        storage: &mut Storage,
        address: u64,
        size: u64,
        value: u8,
    ) -> Result<(), Refusal> {
        if !storage.fits(*memory) {
            return Err(Refusal::BadStorage);
        }
        let equal = Bytes::Filled(value, size as usize);
        if memory.store_here(storage, equal, address, 0) {
            return Ok(());
        }
        Self::store_over(memory, storage, address, equal)
    }

    #[inline(always)]
    fn store_number(
        memory: &mut Memory,
        storage: &mut Storage,
        address: u64,
        value: u64,
        width: Width,
    ) -> Result<(), Refusal> {
        let n = width.bytes();
        let bytes = value.to_le_bytes();
        Self::store(memory, storage, address, Bytes::These(&bytes[..n]))
    }
}

// Sets flags on `count` pages from `first` on, up to one that is frozen.
fn init_flags(flags: &mut [u8], first: u64, count: u64, flag: u8) -> Result<(), Refusal>
    requires { first + count < 18446744073709551616 }
    ensures { (sl ar : List ℕ) (m : Memory) → (number_of result, state_of sl flags.new ar m) ≡ run does (each (init_flag flag) count first) (state_of sl flags.old ar m) }
{
    for page in first..first + count {
        let p = page as usize;
        if p >= flags.len() {
            return Err(Refusal::MemOutOfBound);
        }
        if flags[p] & FLAG_FREEZED != 0 {
            return Err(Refusal::MemWriteOnFreezedPage);
        }
        flags[p] |= flag;
    }
    Ok(())
}

// Whether pages can be filled: whole pages (3), and inside their bounds (2).
fn check_bounds(bound: u64, address: u64, size: u64, lead: u64) -> Result<(), Refusal>
    requires { bound ≤ maximum }
    ensures { number_of result ≡ in_bounds bound address size lead }
{
    if bits::round_page_down(address) != address {
        return Err(Refusal::MemPageUnalignedAccess);
    }
    if bits::round_page_up(size) != size {
        return Err(Refusal::MemPageUnalignedAccess);
    }
    if address > bound {
        return Err(Refusal::MemOutOfBound);
    }
    if size > bound {
        return Err(Refusal::MemOutOfBound);
    }
    if address + size > bound {
        return Err(Refusal::MemOutOfBound);
    }
    if lead > size {
        return Err(Refusal::MemOutOfBound);
    }
    Ok(())
}

// The same with the W^X check: stores need pages that are not executable.
#[derive(Clone, Copy)]
pub struct WXorX;

impl Layer for WXorX {
    ghost stores = { wxorx.store_bytes };

    ghost executes = { wxorx.execute_load };

    ghost inits = { wxorx.init_pages };

    #[inline(always)]
    fn execute_load(
        memory: Memory,
        lent: Lent,
        address: u64,
        width: Width,
    ) -> Result<u64, Refusal> {
        let n = width.bytes();
        if !lent.fits(memory) {
            return Err(Refusal::BadStorage);
        }
        memory.permits_bytes(lent.flags, address, n as u64, FLAG_EXECUTABLE)?;
        if let Some(value) = memory.load_here(lent, address, n) {
            return Ok(value);
        }
        memory.load_over(lent, address, n)
    }

    fn init_pages(
        memory: &mut Memory,
        storage: &mut Storage,
        source: &[u8],
        address: u64,
        size: u64,
        flag: u8,
        lead: u64,
    ) -> Result<(), Refusal> {
        if !storage.fits(*memory) {
            return Err(Refusal::BadStorage);
        }
        check_bounds(memory.size, address, size, lead)?;
        init_flags(storage.flags, address / PAGE, size / PAGE, flag)?;
        memory.fill_data(storage, source, address, size as usize, lead as usize)
    }

    #[inline(always)]
    fn store_over(
        memory: &mut Memory,
        storage: &mut Storage,
        address: u64,
        bytes: Bytes,
    ) -> Result<(), Refusal> {
        if !storage.fits(*memory) {
            return Err(Refusal::BadStorage);
        }
        let n = bytes.len();
        if n == 0 {
            return Ok(());
        }
        memory.permits_bytes(storage.lent().flags, address, n as u64, FLAG_WRITABLE)?;
        memory.store_pages(storage, bytes, address / PAGE, (address % PAGE) as usize)
    }

    #[inline(always)]
    fn store(
        memory: &mut Memory,
        storage: &mut Storage,
        address: u64,
        bytes: Bytes,
    ) -> Result<(), Refusal> {
        if memory.store_here(storage, bytes, address, FLAG_WXORX_BIT) {
            return Ok(());
        }
        let apart = Self::store_apart(
            storage.slots,
            storage.flags,
            storage.area,
            *memory,
            address,
            bytes,
        );
        *memory = apart.memory;
        apart.outcome
    }

    #[inline(always)]
    fn store_byte(
        memory: &mut Memory,
        storage: &mut Storage,
        address: u64,
        size: u64,
        value: u8,
    ) -> Result<(), Refusal> {
        if !storage.fits(*memory) {
            return Err(Refusal::BadStorage);
        }
        let equal = Bytes::Filled(value, size as usize);
        if memory.store_here(storage, equal, address, FLAG_WXORX_BIT) {
            return Ok(());
        }
        Self::store_over(memory, storage, address, equal)
    }

    #[inline(always)]
    fn store_number(
        memory: &mut Memory,
        storage: &mut Storage,
        address: u64,
        value: u64,
        width: Width,
    ) -> Result<(), Refusal> {
        let n = width.bytes();
        let low = value.to_le_bytes();
        Self::store(memory, storage, address, Bytes::These(&low[..n]))
    }
}
