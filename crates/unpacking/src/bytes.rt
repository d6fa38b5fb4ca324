// Numbers in bytes, the most significant byte first.
ghost use Rattle.std.specs.Prelude.{◌≡◌, ◌<◌, ◌^◌, get_or};
ghost use Rattle.bits.specs.Bits.{big};

// Byte i of s, and 0 past its end.
pub fn byte(s: &[u8], i: usize) -> u64
    ensures { (result ≡ get_or s.now i 0) × (result < 256) }
{
    if i < s.len() { s[i] as u64 } else { 0 }
}

// The number of the first three bytes.
pub fn big3(s: &[u8]) -> u64
    ensures { (result ≡ big s.now 3) × (result < 2 ^ 24) }
{
    (byte(s, 0) * 256 + byte(s, 1)) * 256 + byte(s, 2)
}

// The number of the first four bytes.
pub fn big4(s: &[u8]) -> u64
    ensures { (result ≡ big s.now 4) × (result < 2 ^ 32) }
{
    big3(s) * 256 + byte(s, 3)
}

// The number of the first seven bytes.
pub fn big7(s: &[u8]) -> u64
    ensures { (result ≡ big s.now 7) × (result < 2 ^ 56) }
{
    ((big4(s) * 256 + byte(s, 4)) * 256 + byte(s, 5)) * 256 + byte(s, 6)
}

// The number of the first eight bytes.
pub fn big8(s: &[u8]) -> u64
    ensures { result ≡ big s.now 8 }
{
    big7(s) * 256 + byte(s, 7)
}
