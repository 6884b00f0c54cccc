// The calls of Snapshot2Context: context store, mark program, track and untrack.
ghost use Rattle.std.specs.Prelude.{◌≡◌, ◌+◌, ◌<◌, length};
ghost use Rattle.outcome.specs.Numbers.{number_of};
ghost use Rattle.program.specs.Program.{run, perform};
ghost use Rattle.program.specs.Layers.{own};
ghost use Rattle.memory.specs.declared.Memory.{Memory};
ghost use Rattle.memory.specs.Storage.{state_of};
ghost use Rattle.memory.specs.Operations as of_memory;
ghost use Rattle.memory.specs.WXorX as wxorx;
ghost use Rattle.tracking.specs.Operations.{does, on_memory, track!, drop! };
ghost use Rattle.tracking.specs.Tracking.{distance, track_whole, track_pages, drop_whole, untrack_pages, store_tracked, replace, store_data, store_bytes, action_words, action_at, mark_action, mark_actions, mark_program};
ghost use Rattle.tracking.specs.Answers.{tracked_of, tracked_in, tracked_flags, stored_of, RecordsFit, SameTracked, SameTrackedFlags};

use super::records::{Tracking, write_record};
use super::sources::{Sources, load_data};
use super::storage::{TrackedFlags, TrackedStorage};
use memory::layer::{Layer, WXorX};
use memory::storage::{Bytes, Storage};
use memory::{FLAG_DIRTY, Memory, PAGE};
use outcome::Refusal;

// The numbers of a loading action, which C lends as one array.
pub const ACTION_WORDS: usize = 6;

// The last page's address, 2^64-4,096: from an address past it no page boundary is reached, and a page of an item that starts
// there or later ends past 2^64-1.
const LAST_PAGE: u64 = 18446744073709547520;

// What a context store answers: the bytes stored, and the full length that remained from the offset on.
#[derive(Clone, Copy)]
pub struct Stored {
    pub stored: u64,
    pub full: u64,
}

// elf.rs's LoadingAction: where a part of a program goes, and where in its source it lies. `lead` is its offset_from_addr.
#[derive(Clone, Copy)]
pub struct LoadingAction {
    pub addr: u64,
    pub size: u64,
    pub flags: u64,
    pub start: u64,
    pub end: u64,
    pub lead: u64,
}

// The action that six lent numbers are. Read by name: by `From` of an array each number would be named twice, no plainer.
fn action_in(words: &[u64]) -> LoadingAction
    requires { length words.now ≡ action_words }
    ensures { result ≡ action_at words.now 0 }
{
    LoadingAction {
        addr: words[0],
        size: words[1],
        flags: words[2],
        start: words[3],
        end: words[4],
        lead: words[5],
    }
}

// An item's id and offset, which many calls below take, stay apart, as C gives them: `track_whole` moves the offset alone.

// How far the next page boundary is: 0 at a boundary.
fn distance(start: u64) -> u64
    ensures { result ≡ distance start }
{
    bits::round_page_up(start).wrapping_sub(start)
}

// ---- the slices apart: the borrow checker does not cover a `Storage` or a `TrackedFlags` made of another struct's fields in place

// Stores bytes.
fn store_bytes_apart(
    slots: &mut [u16],
    flags: &mut [u8],
    area: &mut [u8],
    memory: &mut Memory,
    address: u64,
    bytes: &[u8],
) -> Result<(), Refusal>
    ensures { (number_of result, state_of slots.new flags.new area.new memory.new) ≡ run of_memory.does (wxorx.store_bytes address bytes.now) (state_of slots.old flags.old area.old memory.old) }
{
    let mut storage = Storage { slots, flags, area };
    WXorX::store(memory, &mut storage, address, Bytes::These(bytes))
}

// Tracks pages.
fn track_apart(
    slots: &mut [u16],
    flags: &mut [u8],
    area: &mut [u8],
    records: &mut [u64],
    memory: Memory,
    start: u64,
    size: u64,
    id: u64,
    offset: u64,
) -> Result<(), Refusal>
    ensures { (number_of result, tracked_of slots.new flags.new area.new records.new memory) ≡ run does (track_pages start size id offset) (tracked_of slots.old flags.old area.old records.old memory) }
{
    let mut tracked = TrackedFlags {
        slots,
        flags,
        area,
        records,
    };
    tracked.track_pages(memory, start, size, id, offset)
}

// Untracks pages.
fn untrack_apart(
    slots: &mut [u16],
    flags: &mut [u8],
    area: &mut [u8],
    records: &mut [u64],
    memory: Memory,
    start: u64,
    size: u64,
) -> Result<(), Refusal>
    ensures { (number_of result, tracked_of slots.new flags.new area.new records.new memory) ≡ run does (untrack_pages start size) (tracked_of slots.old flags.old area.old records.old memory) }
{
    let mut tracked = TrackedFlags {
        slots,
        flags,
        area,
        records,
    };
    tracked.untrack_pages(memory, start, size)
}

impl<'a> TrackedStorage<'a> {
    // ---- context store

    // Stores bytes in the memory.
    fn store(&mut self, memory: &mut Memory, address: u64, bytes: &[u8]) -> Result<(), Refusal>
        ensures value { (number_of result, tracked_in self.new memory.new) ≡ run does (on_memory (wxorx.store_bytes address bytes.now)) (tracked_in self.old memory.old) }
        ensures same { SameTracked self.old self.new }
    {
        store_bytes_apart(self.slots, self.flags, self.area, memory, address, bytes)
    }

    // Tracks the whole pages of `size` bytes from `start` on, which come from an item of the sources, from `offset` on.
    pub fn track_pages(
        &mut self,
        memory: Memory,
        start: u64,
        size: u64,
        id: u64,
        offset: u64,
    ) -> Result<(), Refusal>
        ensures value { (number_of result, tracked_in self.new memory) ≡ run does (track_pages start size id offset) (tracked_in self.old memory) }
        ensures same { SameTracked self.old self.new }
    {
        track_apart(
            self.slots,
            self.flags,
            self.area,
            self.records,
            memory,
            start,
            size,
            id,
            offset,
        )
    }

    // Stores data and tracks its pages.
    fn store_tracked(
        &mut self,
        memory: &mut Memory,
        bytes: &[u8],
        address: u64,
        id: u64,
        offset: u64,
    ) -> Result<(), Refusal>
        ensures value { (number_of result, tracked_in self.new memory.new) ≡ run does (store_tracked address id offset bytes.now) (tracked_in self.old memory.old) }
        ensures same { SameTracked self.old self.new }
    {
        self.store(memory, address, bytes)?;
        self.track_pages(*memory, address, bytes.len() as u64, id, offset)
    }

    // Untracks the pages of data, then stores and tracks it.
    fn replace(
        &mut self,
        memory: &mut Memory,
        bytes: &[u8],
        address: u64,
        id: u64,
        offset: u64,
    ) -> Result<(), Refusal>
        ensures value { (number_of result, tracked_in self.new memory.new) ≡ run does (replace address id offset bytes.now) (tracked_in self.old memory.old) }
        ensures same { SameTracked self.old self.new }
    {
        untrack_apart(
            self.slots,
            self.flags,
            self.area,
            self.records,
            *memory,
            address,
            bytes.len() as u64,
        )?;
        self.store_tracked(memory, bytes, address, id, offset)
    }

    // Stores the full length, and then replaces the pages by the data.
    fn store_data(
        &mut self,
        memory: &mut Memory,
        bytes: &[u8],
        address: u64,
        id: u64,
        offset: u64,
        size_at: u64,
        full: u64,
    ) -> Result<(), Refusal>
        ensures value { (number_of result, tracked_in self.new memory.new) ≡ run does (store_data size_at full address id offset bytes.now) (tracked_in self.old memory.old) }
        ensures same { SameTracked self.old self.new }
    {
        let number = full.to_le_bytes();
        self.store(memory, size_at, &number)?;
        self.replace(memory, bytes, address, id, offset)
    }

    // Stores data of a source, its full length at the size address, and tracks the pages whose whole content it is.
    pub fn store_bytes(
        &mut self,
        memory: &mut Memory,
        sources: Sources,
        address: u64,
        id: u64,
        offset: u64,
        size: u64,
        size_at: u64,
    ) -> Result<Stored, Refusal>
        ensures value { (stored_of result, tracked_in self.new memory.new) ≡ run does (store_bytes sources.entry.directory.now sources.entry.bytes.now address id offset size size_at) (tracked_in self.old memory.old) }
        ensures same { SameTracked self.old self.new }
    {
        if !self.fits(*memory) {
            return Err(Refusal::BadStorage);
        }
        let found = sources.find_data(id, offset, size);
        let Some(place) = found else {
            return Err(Refusal::SnapshotDataLoadError);
        };
        let data = load_data(sources.bytes, found);
        self.store_data(memory, data, address, id, offset, size_at, place.full)?;
        Ok(Stored {
            stored: place.count as u64,
            full: place.full,
        })
    }
}

impl<'a> TrackedFlags<'a> {
    // ---- mark program

    // Tracks the pages of an action.
    fn init_pages(
        &mut self,
        memory: Memory,
        action: LoadingAction,
        id: u64,
        offset: u64,
    ) -> Result<(), Refusal>
        ensures value { (number_of result, tracked_flags self.new memory) ≡ run does (mark_action id offset action) (tracked_flags self.old memory) }
        ensures same { SameTrackedFlags self.old self.new }
    {
        let past = Refusal::MemOutOfBound;
        let start = action.addr.checked_add(action.lead).ok_or(past)?;
        let source = action.end.checked_sub(action.start).ok_or(past)?;
        let room = action.size.checked_sub(action.lead).ok_or(past)?;
        let from = offset.checked_add(action.start).ok_or(past)?;
        self.track_pages(memory, start, source.min(room), id, from)
    }

    // Tracks the pages of all actions, in turn.
    fn mark_actions(
        &mut self,
        memory: Memory,
        actions: &[u64],
        id: u64,
        offset: u64,
    ) -> Result<(), Refusal>
        ensures value { (number_of result, tracked_flags self.new memory) ≡ run does (mark_actions actions.now id offset) (tracked_flags self.old memory) }
        ensures same { SameTrackedFlags self.old self.new }
    {
        for words in actions.chunks_exact(ACTION_WORDS) {
            self.init_pages(memory, action_in(words), id, offset)?;
        }
        Ok(())
    }

    // Tracks the pages of a program's loading actions, numbers in sixes: address, size, flags, source start, source end, lead.
    pub fn mark_program(
        &mut self,
        memory: Memory,
        actions: &[u64],
        id: u64,
        offset: u64,
    ) -> Result<(), Refusal>
        ensures value { (number_of result, tracked_flags self.new memory) ≡ run does (mark_program actions.now id offset) (tracked_flags self.old memory) }
        ensures same { SameTrackedFlags self.old self.new }
    {
        if !self.fits(memory) {
            return Err(Refusal::BadStorage);
        }
        self.mark_actions(memory, actions, id, offset)
    }

    // ---- track

    // Tracks one page.
    fn track_page(&mut self, page: u64, id: u64, offset: u64) -> Result<(), Refusal>
        requires { RecordsFit self.old }
        ensures value { (m : Memory) → (number_of result, tracked_flags self.new m) ≡ run does (perform (own (track! page id offset))) (tracked_flags self.old m) }
        ensures same { SameTrackedFlags self.old self.new }
    {
        let p = page as usize;
        if p >= self.flags.len() {
            return Err(Refusal::MemOutOfBound);
        }
        if offset >= LAST_PAGE {
            return Err(Refusal::MemOutOfBound);
        }
        let before = self.flags[p];
        let flag = before & !FLAG_DIRTY;
        self.flags[p] = flag;
        write_record(self.records, page, Tracking::Tracked(id, offset, flag));
        Ok(())
    }

    // Tracks `count` whole pages from `first` on.
    fn track_whole(&mut self, first: u64, count: u64, id: u64, offset: u64) -> Result<(), Refusal>
        requires long { RecordsFit self.old }
        requires ends { first + count < 18446744073709551616 }
        ensures value { (m : Memory) → (number_of result, tracked_flags self.new m) ≡ run does (track_whole first count id offset) (tracked_flags self.old m) }
        ensures same { SameTrackedFlags self.old self.new }
    {
        // The offset of the page, a running sum: from the page's number it would take a product.
        let mut at = offset;
        for page in first..first + count {
            self.track_page(page, id, at)?;
            at += PAGE;
        }
        Ok(())
    }

    // Tracks the whole pages of `size` bytes from `start` on, which come from an item of the sources, from `offset` on.
    pub fn track_pages(
        &mut self,
        memory: Memory,
        start: u64,
        size: u64,
        id: u64,
        offset: u64,
    ) -> Result<(), Refusal>
        ensures value { (number_of result, tracked_flags self.new memory) ≡ run does (track_pages start size id offset) (tracked_flags self.old memory) }
        ensures same { SameTrackedFlags self.old self.new }
    {
        if !self.fits(memory) {
            return Err(Refusal::BadStorage);
        }
        let d = distance(start);
        if size < d {
            return Ok(());
        }
        if start > LAST_PAGE {
            return Err(Refusal::MemOutOfBound);
        }
        let from = offset.checked_add(d).ok_or(Refusal::MemOutOfBound)?;
        let rest = size - d;
        let count = rest / PAGE;
        self.track_whole((start + d) / PAGE, count, id, from)
    }

    // ---- untrack

    // Untracks one page.
    fn untrack_page(&mut self, page: u64) -> Result<(), Refusal>
        requires { RecordsFit self.old }
        ensures value { (m : Memory) → (number_of result, tracked_flags self.new m) ≡ run does (perform (own (drop! page))) (tracked_flags self.old m) }
        ensures same { SameTrackedFlags self.old self.new }
    {
        let p = page as usize;
        if p >= self.flags.len() {
            return Err(Refusal::MemOutOfBound);
        }
        self.flags[p] |= FLAG_DIRTY;
        write_record(self.records, page, Tracking::Untracked);
        Ok(())
    }

    // Untracks the pages from `first` to `last`.
    fn untrack_whole(&mut self, first: u64, last: u64) -> Result<(), Refusal>
        requires { RecordsFit self.old }
        ensures value { (m : Memory) → (number_of result, tracked_flags self.new m) ≡ run does (drop_whole first last) (tracked_flags self.old m) }
        ensures same { SameTrackedFlags self.old self.new }
    {
        for page in first..=last {
            self.untrack_page(page)?;
        }
        Ok(())
    }

    // Drops the records of the pages of `size` bytes from `start` on, and sets their dirty flags.
    pub fn untrack_pages(&mut self, memory: Memory, start: u64, size: u64) -> Result<(), Refusal>
        ensures value { (number_of result, tracked_flags self.new memory) ≡ run does (untrack_pages start size) (tracked_flags self.old memory) }
        ensures same { SameTrackedFlags self.old self.new }
    {
        if !self.fits(memory) {
            return Err(Refusal::BadStorage);
        }
        if size == 0 {
            return Ok(());
        }
        let indices = memory::get_page_indices(start, size)?;
        self.untrack_whole(indices.first, indices.last)
    }
}
