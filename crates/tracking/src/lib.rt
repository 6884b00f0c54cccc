// Sources and tracking: snapshot2.rs, with elf.rs's LoadingAction as input.
//
// Document 01, "Sources and tracking". A program's readings lie in lent source bytes with a lent directory. The records of a
// machine's pages, lent beside its memory's storage, say which pages hold exactly bytes of a source, so that a snapshot can name
// them instead of carrying them.
//
//   sources   the directory, and the part of the source bytes that an item's data is
//   records   a page's record
//   storage   a memory's lent storage with its records
//   context   Snapshot2Context's calls: context store, mark program, track and untrack
//
// Every call answers on every input. Those that are lent a memory with its records look at all lengths first (refusal 9). What
// each answers and leaves is one program of specs/ (Tracking.antt), run on the lent lists; the memory's part in it is the
// program that the memory's call promises.
#![tactic(auto)]

pub mod context;
pub mod records;
pub mod sources;
pub mod storage;

ghost use Rattle.std.specs.Prelude.{◌≡◌};
ghost use Rattle.tracking.specs.Operations.{fits_all};

use memory::Memory;

// Whether the lent lengths are right: the memory's, and the records'. By themselves, for the structs of storage.rt ask it alike;
// docs/PROMISES.md has it.
pub fn lengths_fit(slots: usize, flags: usize, area: usize, records: usize, memory: Memory) -> bool
    ensures { result ≡ fits_all slots flags area records memory }
{
    memory::storage_fits(slots, flags, area, memory) && machine::records_fit(records, flags as u64)
}
