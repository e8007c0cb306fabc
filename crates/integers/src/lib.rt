// Numbers of two and four bytes, high byte first, read from slices and written to them.
#![tactic(auto)]

ghost use Rattle.std.specs.Prelude.{◌≡◌};
ghost use Rattle.std.specs.Int.{w32};
ghost use Rattle.std.proofs.Common.{to_z, of_z};
ghost use Rattle.slices.specs.Bytes.{big_endian, number_at, number_bytes, overwrite};

use slices::{byte_at, fits, part_of};

// The number of the first four bytes.
fn four_bytes(s: &[u8]) -> u32
    ensures { result ≡ big_endian 4 s.now 0 }
{
    // Four bytes at once where there are so many: one test in place of four.
    if let Some(bytes) = s.first_chunk::<4>() {
        return u32::from_be_bytes(*bytes);
    }
    u32::from_be_bytes([byte_at(s, 0), byte_at(s, 1), byte_at(s, 2), byte_at(s, 3)])
}

// A distance: two bytes, high byte first.
pub fn distance_at(s: &[u8], at: usize) -> usize
    ensures { result ≡ big_endian 2 s.now at }
{
    let part = part_of(s, at, 2);
    usize::from(u16::from_be_bytes([byte_at(part, 0), byte_at(part, 1)]))
}

// The number whose bits are u.
pub fn number_of(u: u32) -> i32
    ensures { result ≡ to_z w32 u }
{
    u.cast_signed()
}

// The bits of n.
pub fn bits_of(n: i32) -> u32
    ensures { result ≡ of_z w32 n }
{
    n.cast_unsigned()
}

// A signed number: four bytes, two's complement, high byte first.
pub fn number_at(s: &[u8], at: usize) -> i32
    ensures { result ≡ number_at s.now at }
{
    number_of(four_bytes(part_of(s, at, 4)))
}

// A signed number written at a position; nothing where it does not fit.
pub fn put_number(s: &mut [u8], at: usize, n: i32)
    ensures { s.new ≡ overwrite s.old at (number_bytes n) }
{
    if fits(s.len(), at, 4) {
        // `copy_from_slice` is slower here: it looks first whether the two overlap.
        let [a, b, c, d] = n.to_be_bytes();
        s[at] = a;
        s[at + 1] = b;
        s[at + 2] = c;
        s[at + 3] = d;
    }
}
