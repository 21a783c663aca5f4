// Bytes written in place: numbers of four and of eight bytes, little-endian.
#![tactic(auto, unfolding(rules::specs::Encoding::put, rules::specs::Encoding::word, rules::specs::Encoding::double_word))]

ghost use Rattle.std.specs.Prelude.{◌≡◌, ◌+◌, ◌*◌, ◌≤◌, ◌<◌, ◌^◌, length, replicate};
ghost use Rattle.rules.specs.Encoding.{word, double_word, put};

// These bytes from a place on.
pub fn put_bytes(archive: &mut [u8], at: u64, bytes: &[u8])
    requires { at + length bytes.now ≤ length archive.old }
    ensures { archive.new ≡ put archive.old at bytes.now }
{
    let start = at as usize;
    archive[start..start + bytes.len()].copy_from_slice(bytes);
}

// A number in four bytes.
pub fn put_word(archive: &mut [u8], at: u64, n: u64)
    requires { (at + 4 ≤ length archive.old) × (n < 2 ^ 32) }
    ensures { archive.new ≡ put archive.old at (word n) }
{
    put_bytes(archive, at, &(n as u32).to_le_bytes());
}

// Every byte zero.
pub fn clear(archive: &mut [u8])
    ensures { archive.new ≡ replicate (length archive.old) 0 }
{
    archive.fill(0);
}

// Place i, 8 bytes to a place.
pub fn put_place(list: &mut [u8], i: usize, n: u64)
    requires { 8 * i + 8 ≤ length list.old }
    ensures { list.new ≡ put list.old (8 * i) (double_word n) }
{
    put_bytes(list, (8 * i) as u64, &n.to_le_bytes());
}
