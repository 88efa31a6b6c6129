// An f64 as it travels: eight bytes, the lowest first.
#![tactic(auto)]

ghost use Rattle.std.specs.Prelude.{◌≡◌, ◌+◌, ◌≤◌, ◌<◌, length};
ghost use Rattle.std.specs.Float.{binary64};
ghost use Rattle.std.specs.Float.Ieee.{of_bits, to_bits};
ghost use Rattle.wire.specs.Wire.{digits, with_digits, float_at, with_float};

// The number in the eight bytes from at on. It compiles to one eight-byte load.
pub fn word_at(b: &[u8], at: usize) -> u64
    requires { at + 8 ≤ length b.now }
    ensures { result ≡ digits b.now at 8 }
{
    u64::from_le_bytes([
        b[at],
        b[at + 1],
        b[at + 2],
        b[at + 3],
        b[at + 4],
        b[at + 5],
        b[at + 6],
        b[at + 7],
    ])
}

// The eight digits of w to the bytes from at on.
pub fn put_word(b: &mut [u8], at: usize, w: u64)
    requires { at + 8 ≤ length b.old }
    ensures { b.new ≡ with_digits b.old at w 8 }
{
    b[at..at + 8].copy_from_slice(&w.to_le_bytes());
}

// The float of a pattern, and the NaN for each pattern of a NaN.
pub fn float_of(w: u64) -> f64
    ensures { result ≡ of_bits binary64 w }
{
    if w % 0x8000_0000_0000_0000 > 0x7ff0_0000_0000_0000 {
        return 0.0 / 0.0;
    }
    f64::from_bits(w)
}

// The pattern of a float: of every NaN the one, 0x7ff8000000000000.
pub fn pattern_of(x: f64) -> u64
    ensures { result ≡ to_bits binary64 x }
{
    if x != x {
        0x7ff8_0000_0000_0000
    } else {
        f64::to_bits(x)
    }
}

pub fn float_at(b: &[u8], at: usize) -> f64
    requires { at + 8 ≤ length b.now }
    ensures { result ≡ float_at b.now at }
{
    float_of(word_at(b, at))
}

pub fn put_float(b: &mut [u8], at: usize, x: f64)
    requires { at + 8 ≤ length b.old }
    ensures { b.new ≡ with_float b.old at x }
{
    put_word(b, at, pattern_of(x));
}
