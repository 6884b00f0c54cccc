// Rounding to whole pages: bits.rs, and round_page_up and round_page_down of memory/mod.rs.
//
// Document 01, "Rounding and pages": "Rounding up is computed modulo 2^64, as bits.rs does: 0 gives 0,
// 4,097 gives 8,192, 2^64-1 gives 0. Rounding 4,095 down gives 0." The code has bits.rs's form, masks and
// wrapping sums; the promises are plain arithmetic (specs/Rounding.antt), and callers use these alone.
// Both calls answer every number. That the sum wraps to 0 at the top, and nowhere else, is proofs/Wrap.antt.
#![tactic(auto)]

ghost use Rattle.std.specs.Prelude.{◌≡◌};
ghost use Rattle.bits.specs.Rounding.{rounded_up, rounded_down};

// The bytes of a page.
pub const RISCV_PAGESIZE: usize = 4096;

// x rounded up to a whole page, modulo 2^64: above the last whole page it wraps to 0.
#[inline]
pub fn round_page_up(x: u64) -> u64
    ensures { result ≡ rounded_up x }
{
    let mask = RISCV_PAGESIZE as u64 - 1;
    let negated = (!x).wrapping_add(1);
    x.wrapping_add(negated & mask)
}

// x rounded down to a whole page.
#[inline]
pub fn round_page_down(x: u64) -> u64
    ensures { result ≡ rounded_down x }
{
    let mask = RISCV_PAGESIZE as u64 - 1;
    x & !mask
}
