// The machine: registers, pc and pending pc, version, cycles and their maximum, above its memory: machine/mod.rs, cut.
//
// Document 01, the machine's row of "What is ported". A machine goes in by value, as `self` or `mut self`, and comes back whole, on
// a refusal too; nothing of it is held elsewhere. Its memory is W^X over sparse memory: a call on it is lent the field,
// which `memory()` hands out and `with_memory` takes back, and what is lent beside. A fresh machine also has every page's record
// untracked.
//
// What each method answers and leaves is a definition of specs/Numbers.antt; what `fresh` does is one of specs/Fresh.antt.
#![tactic(auto)]

ghost use Rattle.std.specs.Prelude.{◌≡◌, ◌/◌, length};
ghost use Rattle.outcome.specs.Numbers.{number_of};
ghost use Rattle.words.specs.Bytes.{filled};
ghost use Rattle.memory.specs.Answers.{value_of};
ghost use Rattle.memory.specs.Lent.{SameSlices};
ghost use Rattle.machine.specs.Numbers.{numbers_of, machine_of, fresh_numbers, with_registers, register, set_register, update_pc, commit_pc, set_cycles, set_max_cycles, changed};
ghost use Rattle.machine.specs.Fresh.{records_fit, fresh, made};

use memory::storage::Storage;
use memory::{Memory, PAGE};
use outcome::Refusal;

// The registers of a machine.
pub const RISCV_GENERAL_REGISTER_NUMBER: usize = 32;

// The words of a page's record: id, offset, mark. A number of 64 bits; as an index it is tracking's `WORDS`, as a cast at each use
// is no plainer.
pub const RECORD_WORDS: u64 = 3;

// A machine's own numbers, and its memory's.
#[repr(C)]
#[derive(Clone, Copy)]
pub struct Machine {
    pub registers: [u64; RISCV_GENERAL_REGISTER_NUMBER],
    pub pc: u64,
    pub next_pc: u64,
    pub version: u32,
    pub cycles: u64,
    pub max_cycles: u64,
    pub memory: Memory,
}

// What a call answers, and the machine handed back. Beside each other, as a refusal hands it back too: with a machine in each arm
// of a `Result`, set_register takes 3.5 times as long.
#[derive(Clone, Copy)]
pub struct Answer {
    pub outcome: Result<(), Refusal>,
    pub machine: Machine,
}

// Whether the lent records are of the right length for so many pages.
pub fn records_fit(words: usize, pages: u64) -> bool
    ensures { result ≡ records_fit words pages }
{
    words as u64 % RECORD_WORDS == 0 && words as u64 / RECORD_WORDS == pages
}

// Every record is untracked.
#[tactic(auto, unfolding(words::specs::Bytes::filled))]
pub fn untrack_all(records: &mut [u64])
    ensures { records.new ≡ filled (length records.old) 0 }
{
    for word in records {
        *word = 0;
    }
}

// A machine with nothing done yet, of a version, a maximum of cycles and a memory.
#[tactic(auto, unfolding(words::specs::Bytes::filled))]
fn fresh_machine(version: u32, maximum: u64, memory: Memory) -> Machine
    ensures { result ≡ machine_of (fresh_numbers version maximum) memory }
{
    Machine {
        registers: [0u64; RISCV_GENERAL_REGISTER_NUMBER],
        pc: 0,
        next_pc: 0,
        version,
        cycles: 0,
        max_cycles: maximum,
        memory,
    }
}

impl Machine {
    // A fresh machine of so many bytes. The records go beside the storage: the struct of both is tracking's, above.
    pub fn fresh(
        storage: &mut Storage,
        records: &mut [u64],
        size: u64,
        version: u32,
        maximum: u64,
    ) -> Result<Self, Refusal>
        ensures value { made result storage.new records.new ≡ fresh storage.old.slots.now storage.old.flags.now storage.old.area.now records.old size version maximum }
        ensures same { SameSlices storage.old storage.new }
    {
        if !records_fit(records.len(), size / PAGE) {
            return Err(Refusal::BadStorage);
        }
        let memory = Memory::fresh(storage, size)?;
        untrack_all(records);
        Ok(fresh_machine(version, maximum, memory))
    }

    // The registers.
    pub fn registers(self) -> [u64; RISCV_GENERAL_REGISTER_NUMBER]
        ensures { result ≡ (numbers_of self).registers }
    {
        self.registers
    }

    // Sets all registers.
    pub fn with_registers(mut self, registers: [u64; RISCV_GENERAL_REGISTER_NUMBER]) -> Self
        ensures { result ≡ machine_of (with_registers registers (numbers_of self)) self.memory }
    {
        self.registers = registers;
        self
    }

    // A register.
    #[tactic(auto, unfolding(crate::specs::Numbers::register))]
    pub fn register(self, i: u64) -> Result<u64, Refusal>
        ensures { value_of result ≡ register i (numbers_of self) }
    {
        let at = i as usize;
        if at < RISCV_GENERAL_REGISTER_NUMBER {
            Ok(self.registers[at])
        } else {
            Err(Refusal::NoSuchRegister)
        }
    }

    // Sets a register.
    #[tactic(auto, unfolding(crate::specs::Numbers::set_register))]
    pub fn set_register(mut self, i: u64, value: u64) -> Answer
        ensures { (number_of result.outcome, result.machine) ≡ changed (set_register i value (numbers_of self)) self.memory }
    {
        let at = i as usize;
        if at >= RISCV_GENERAL_REGISTER_NUMBER {
            return Answer {
                outcome: Err(Refusal::NoSuchRegister),
                machine: self,
            };
        }
        self.registers[at] = value;
        Answer {
            outcome: Ok(()),
            machine: self,
        }
    }

    // The pc.
    pub fn pc(self) -> u64
        ensures { result ≡ (numbers_of self).pc }
    {
        self.pc
    }

    // Sets the pending pc.
    pub fn update_pc(mut self, pc: u64) -> Self
        ensures { result ≡ machine_of (update_pc pc (numbers_of self)) self.memory }
    {
        self.next_pc = pc;
        self
    }

    // The pending pc becomes the pc.
    pub fn commit_pc(mut self) -> Self
        ensures { result ≡ machine_of (commit_pc (numbers_of self)) self.memory }
    {
        self.pc = self.next_pc;
        self
    }

    // The version.
    pub fn version(self) -> u32
        ensures { result ≡ (numbers_of self).version }
    {
        self.version
    }

    // The cycles spent.
    pub fn cycles(self) -> u64
        ensures { result ≡ (numbers_of self).cycles }
    {
        self.cycles
    }

    // Sets the cycles spent.
    pub fn set_cycles(mut self, cycles: u64) -> Self
        ensures { result ≡ machine_of (set_cycles cycles (numbers_of self)) self.memory }
    {
        self.cycles = cycles;
        self
    }

    // The maximum of cycles.
    pub fn max_cycles(self) -> u64
        ensures { result ≡ (numbers_of self).max_cycles }
    {
        self.max_cycles
    }

    // Sets the maximum of cycles.
    pub fn set_max_cycles(mut self, cycles: u64) -> Self
        ensures { result ≡ machine_of (set_max_cycles cycles (numbers_of self)) self.memory }
    {
        self.max_cycles = cycles;
        self
    }

    // The memory: what a call on it is given.
    pub fn memory(self) -> Memory
        ensures { result ≡ self.memory }
    {
        self.memory
    }

    // Takes back a memory that a call on it has answered.
    pub fn with_memory(mut self, memory: Memory) -> Self
        ensures { result ≡ machine_of (numbers_of self) memory }
    {
        self.memory = memory;
        self
    }
}
