// The numbers that a call answers: document 01's table "Numbers that a call answers" as an enum of its refusals.
//
// `Refusal` has one case for each number of the table but 0, named as the Rust's Error where it has one, else in the table's words.
// A call answers `Ok` where it is done, and its number is 0 then: `number_of` (specs/Numbers.antt) is the number of each answer, and
// the promises of all calls speak through it. `number` computes it for hosts, `is_done` tells 0 from every refusal.
// That no two answers share a number is proofs/Numbers.antt.
#![tactic(auto)]

ghost use Rattle.std.specs.Prelude.{◌≡◌};
ghost use Rattle.outcome.specs.Numbers.{number_of, refusal_number, is_done, Names};

use std::error::Error;
use std::fmt;

// Why a call did nothing, or stopped.
#[derive(Clone, Copy, Debug, PartialEq, Eq)]
pub enum Refusal {
    // 1: the snapshot is of another version.
    InvalidVersion,
    // 2: past the machine's memory, past the maximum, or a sum past 2^64-1.
    MemOutOfBound,
    // 3: an address, a size or data that is not whole pages.
    MemPageUnalignedAccess,
    // 4: a store to an executable page, or an execute load from one that isn't.
    MemWriteOnExecutablePage,
    // 5: a page fill that meets a frozen page.
    MemWriteOnFreezedPage,
    // 6: no such item, its range leaves the source bytes, or the offset is past its end.
    SnapshotDataLoadError,
    // 7: an absent page must be written and all slots are in use.
    AllSlotsInUse,
    // 8: a lent output is too short.
    OutputTooShort,
    // 9: a memory size, a lent length or a page's slot number that can't be.
    BadStorage,
    // 10: register number 32 or more.
    NoSuchRegister,
    // 11: a record file that is not in its form.
    BadRecordFile,
}

// The number of document 01's table.
impl From<Refusal> for u32 {
    ghost from_gives = { λ refusal n. n ≡ refusal_number refusal };

    fn from(refusal: Refusal) -> u32 {
        match refusal {
            Refusal::InvalidVersion => 1,
            Refusal::MemOutOfBound => 2,
            Refusal::MemPageUnalignedAccess => 3,
            Refusal::MemWriteOnExecutablePage => 4,
            Refusal::MemWriteOnFreezedPage => 5,
            Refusal::SnapshotDataLoadError => 6,
            Refusal::AllSlotsInUse => 7,
            Refusal::OutputTooShort => 8,
            Refusal::BadStorage => 9,
            Refusal::NoSuchRegister => 10,
            Refusal::BadRecordFile => 11,
        }
    }
}

// A number that is none of the refusals'.
#[derive(Clone, Copy, Debug, PartialEq, Eq)]
pub struct UnknownNumber(pub u32);

impl TryFrom<u32> for Refusal {
    type Error = UnknownNumber;

    ghost try_from_gives = { Names };

    fn try_from(number: u32) -> Result<Self, UnknownNumber> {
        match number {
            1 => Ok(Refusal::InvalidVersion),
            2 => Ok(Refusal::MemOutOfBound),
            3 => Ok(Refusal::MemPageUnalignedAccess),
            4 => Ok(Refusal::MemWriteOnExecutablePage),
            5 => Ok(Refusal::MemWriteOnFreezedPage),
            6 => Ok(Refusal::SnapshotDataLoadError),
            7 => Ok(Refusal::AllSlotsInUse),
            8 => Ok(Refusal::OutputTooShort),
            9 => Ok(Refusal::BadStorage),
            10 => Ok(Refusal::NoSuchRegister),
            11 => Ok(Refusal::BadRecordFile),
            _ => Err(UnknownNumber(number)),
        }
    }
}

impl fmt::Display for Refusal {
    ghost use Rattle.std.specs.Prelude.{Some};
    ghost use Rattle.outcome.specs.Meanings.{meaning};

    ghost output = { λ refusal. Some (meaning refusal) };

    fn fmt<W: fmt::Write>(&self, f: &mut fmt::Formatter<W>) -> fmt::Result {
        let words = match self {
            Refusal::InvalidVersion => "the snapshot is of another version",
            Refusal::MemOutOfBound =>
                "past the machine's memory, past the maximum, or a sum past 2^64-1",
            Refusal::MemPageUnalignedAccess => "an address, a size or data that is not whole pages",
            Refusal::MemWriteOnExecutablePage => {
                "a store to an executable page, or an execute load from one that isn't"
            }
            Refusal::MemWriteOnFreezedPage => "a page fill that meets a frozen page",
            Refusal::SnapshotDataLoadError => {
                "no such item, its range leaves the source bytes, or the offset is past its end"
            }
            Refusal::AllSlotsInUse => "an absent page must be written and all slots are in use",
            Refusal::OutputTooShort => "a lent output is too short",
            Refusal::BadStorage =>
                "a memory size, a lent length or a page's slot number that can't be",
            Refusal::NoSuchRegister => "register number 32 or more",
            Refusal::BadRecordFile => "a record file that is not in its form",
        };
        f.write_str(words)
    }
}

impl Error for Refusal {}

// What C's functions answer, which have no `Result`.
// The number of document 01's table: 0 where a call is done.
pub fn number(outcome: Result<(), Refusal>) -> u32
    ensures { result ≡ number_of outcome }
{
    match outcome {
        Ok(()) => 0,
        Err(refusal) => u32::from(refusal),
    }
}

// Whether a call is done, and not refused: `is_ok`, by its number, under the name that docs/PROMISES.md has.
pub fn is_done(outcome: Result<(), Refusal>) -> bool
    ensures { result ≡ is_done outcome }
{
    number(outcome) == 0
}
