// Parts of slices, and bytes read from slices and written to them.
#![tactic(auto)]

ghost use Rattle.std.specs.Prelude.{◌≡◌, ◌∷◌, [], ◌+◌, leb, length, get_or, take, drop};
ghost use Rattle.slices.specs.Bytes.{overwrite};

// The part of s from start on, at most length bytes of it.
pub fn part_of(s: &[u8], start: usize, length: usize) -> &[u8]
    ensures { result.now ≡ take length (drop start s.now) }
{
    let first = start.min(s.len());
    let n = length.min(s.len() - first);
    &s[first..first + n]
}

// A byte, or 0 past the end.
pub fn byte_at(s: &[u8], at: usize) -> u8
    ensures { result ≡ get_or s.now at 0 }
{
    s.get(at).copied().unwrap_or(0)
}

// Whether n bytes from at on are within a length.
pub fn fits(length: usize, at: usize, n: usize) -> bool
    ensures { result ≡ leb (at + n) length }
{
    n <= length && at <= length - n
}

// A byte written at a position; nothing past the end.
pub fn put_byte(s: &mut [u8], at: usize, b: u8)
    ensures { s.new ≡ overwrite s.old at (b ∷ []) }
{
    if at < s.len() {
        s[at] = b;
    }
}
