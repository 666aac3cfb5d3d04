// Little-endian words made of bytes.
#![tactic(auto)]

ghost use Rattle.std.specs.Prelude.{◌≡◌};
ghost use Rattle.laws.specs.Words;

pub fn word16(a: u8, b: u8) -> u16
    ensures { result ≡ Words.word16 a b }
{
    u16::from_le_bytes([a, b])
}

pub fn word32(a: u8, b: u8, c: u8, d: u8) -> u32
    ensures { result ≡ Words.word32 a b c d }
{
    u32::from_le_bytes([a, b, c, d])
}

pub fn word64(low: u32, high: u32) -> u64
    ensures { result ≡ Words.word64 low high }
{
    u64::from(low) + (u64::from(high) << 32)
}
