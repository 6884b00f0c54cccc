// Bytes in slices: little-endian numbers of up to eight bytes, read and written, a copy of at most a page, and a fill.
//
//   read_le, write_le   the number in n bytes; callers pass 1, 2, 4 or 8, and 8 to write_le. Document 01: "All little-endian."
//   copy                at most a page
//   fill                every byte of a slice
//
// copy is a call of std, fill a loop: std's `fill` sets the last byte apart, where AddressSanitizer doesn't see it. Their names are
// those of document 01's leaves, which docs/PROMISES.md has.
//
// Each is total: a byte past the end of a slice is not there. It isn't read, and what would be stored there is dropped.
// What they leave behind is said by `from_le`, `to_le`, `written` and `filled` of specs/.
#![tactic(auto)]

ghost use Rattle.std.specs.Prelude.{◌≡◌, ◌≤◌, min, length, take};
ghost use Rattle.bits.specs.Rounding.{page_size};
ghost use Rattle.words.specs.Bytes.{written, filled};
ghost use Rattle.words.specs.LittleEndian.{to_le, Read};

use bits::RISCV_PAGESIZE;

// The lesser of two: `min`, under the name that docs/PROMISES.md has.
#[inline]
pub fn least(a: usize, b: usize) -> usize
    ensures { result ≡ min a b }
{
    a.min(b)
}

// The number in the n bytes of s from at on; of more than eight bytes the first eight. The slice whole, with an index and a count:
// a part that is not there would have to be refused.
#[inline]
pub fn read_le(s: &[u8], at: usize, n: usize) -> u64
    ensures { Read s.now at (min n 8) result }
{
    let from = at.min(s.len());
    let n = n.min(8).min(s.len() - from);
    let mut bytes = [0u8; 8];
    bytes[..n].copy_from_slice(&s[from..from + n]);
    u64::from_le_bytes(bytes)
}

// The n lowest bytes of x into s from at on, zeros past the eighth; the other bytes stay. The slice whole, as in `read_le`.
#[inline]
pub fn write_le(s: &mut [u8], at: usize, n: usize, x: u64)
    ensures { s.new ≡ written s.old at (to_le n x) }
{
    let from = at.min(s.len());
    let end = from + n.min(s.len() - from);
    let high = from + n.min(8).min(s.len() - from);
    let bytes = x.to_le_bytes();
    s[from..high].copy_from_slice(&bytes[..high - from]);
    fill(&mut s[high..end], 0);
}

// The first page of src into dst from its start on.
#[tactic(auto, using(crate::proofs::Std::copied))]
#[inline]
pub fn copy(dst: &mut [u8], src: &[u8])
    ensures { dst.new ≡ written dst.old 0 (take page_size src.now) }
{
    let n = dst.len().min(src.len()).min(RISCV_PAGESIZE);
    dst[..n].copy_from_slice(&src[..n]);
}

// Sets every byte of dst to one value.
#[tactic(auto, unfolding(crate::specs::Bytes::filled))]
#[inline]
pub fn fill(dst: &mut [u8], value: u8)
    ensures { dst.new ≡ filled (length dst.old) value }
{
    for byte in dst {
        *byte = value;
    }
}
