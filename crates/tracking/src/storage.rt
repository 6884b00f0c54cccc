// A memory's lent storage with the records of its pages.
ghost use Rattle.std.specs.Prelude.{◌≡◌};
ghost use Rattle.tracking.specs.Operations.{fits_tracked};

use super::lengths_fit;
use memory::Memory;

// Storage and records that calls write to. Flat, as the two below: a struct of slices in a struct is not led back to C's slices.
#[derive(Drop)]
pub struct TrackedStorage<'a> {
    pub slots: &'a mut [u16],
    pub flags: &'a mut [u8],
    pub area: &'a mut [u8],
    pub records: &'a mut [u64],
}

// Storage of which only the flags are written to, and records: slots and area are lent `const` by C there. That there are records
// for all pages stands in clauses, as `RecordsFit`: an invariant of a struct of `&mut` slices is not led back to the lent slices.
#[derive(Drop)]
pub struct TrackedFlags<'a> {
    pub slots: &'a [u16],
    pub flags: &'a mut [u8],
    pub area: &'a [u8],
    pub records: &'a mut [u64],
}

// Storage and records that are only read, which C lends `const`.
#[derive(Clone, Copy)]
pub struct TrackedLent<'a> {
    pub slots: &'a [u16],
    pub flags: &'a [u8],
    pub area: &'a [u8],
    pub records: &'a [u64],
}

impl<'a> TrackedLent<'a> {
    ghost use Rattle.tracking.specs.Answers.{tracked_read};

    // Whether the lent lengths are right.
    pub fn fits(self, memory: Memory) -> bool
        ensures { result ≡ fits_tracked (tracked_read self.entry memory) }
    {
        let TrackedLent {
            slots,
            flags,
            area,
            records,
        } = self;
        lengths_fit(slots.len(), flags.len(), area.len(), records.len(), memory)
    }
}

impl<'a> TrackedFlags<'a> {
    ghost use Rattle.tracking.specs.Answers.{tracked_flags};

    // Whether the lent lengths are right.
    pub(crate) fn fits(&self, memory: Memory) -> bool
        ensures { result ≡ fits_tracked (tracked_flags self.now memory) }
    {
        lengths_fit(
            self.slots.len(),
            self.flags.len(),
            self.area.len(),
            self.records.len(),
            memory,
        )
    }
}

impl<'a> TrackedStorage<'a> {
    ghost use Rattle.tracking.specs.Answers.{tracked_in};

    // The same, to be read.
    pub fn lent(&self) -> TrackedLent<'_>
        ensures slots { result.slots.now ≡ self.now.slots.now }
        ensures flags { result.flags.now ≡ self.now.flags.now }
        ensures area { result.area.now ≡ self.now.area.now }
        ensures records { result.records.now ≡ self.now.records.now }
    {
        TrackedLent {
            slots: self.slots,
            flags: self.flags,
            area: self.area,
            records: self.records,
        }
    }

    // Whether the lent lengths are right.
    pub fn fits(&self, memory: Memory) -> bool
        ensures { result ≡ fits_tracked (tracked_in self.now memory) }
    {
        self.lent().fits(memory)
    }
}
