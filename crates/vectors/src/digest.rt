// The digest of a table or of an output: a number below 2^31 - 1 that tells them apart well enough.
// For tables and bytes the contract says what it is.
ghost use Rattle.std.specs.Prelude.{◌≡◌, ◌<◌};
ghost use Rattle.vectors.specs.Digest.{mixed, digest_of};

fn mix(h: u32, x: u16) -> u32
    ensures { result ≡ mixed h x }
{
    ((u64::from(h) * 65599 + u64::from(x) + 1) % 2147483647) as u32
}

// A number of 64 bits goes in by its four pieces of 16 bits, the lowest first.
fn mix_bits(h: u32, bits: u64) -> u32
    ensures { result < 2147483647 }
{
    let [a, b, c, d, e, f, g, i] = bits.to_le_bytes();
    let h = mix(h, u16::from_le_bytes([a, b]));
    let h = mix(h, u16::from_le_bytes([c, d]));
    let h = mix(h, u16::from_le_bytes([e, f]));
    mix(h, u16::from_le_bytes([g, i]))
}

// The bit pattern of a float, 0 for one that is no number.
fn bits_of(x: f64) -> u64 {
    if x.is_nan() { 0 } else { x.to_bits() }
}

pub fn digest_of(table: &[u16]) -> u32
    ensures { result ≡ digest_of table.now }
{
    table.iter().fold(1, |h, x| mix(h, *x))
}

pub fn digest_bytes(bytes: &[u8]) -> u32
    ensures { result ≡ digest_of bytes.now }
{
    bytes.iter().fold(1, |h, x| mix(h, u16::from(*x)))
}

pub fn digest_floats(floats: &[f64]) -> u32 {
    floats.iter().fold(1, |h, x| mix_bits(h, bits_of(*x)))
}

pub fn digest_signed(numbers: &[i64]) -> u32 {
    numbers
        .iter()
        .fold(1, |h, x| mix_bits(h, x.cast_unsigned()))
}
