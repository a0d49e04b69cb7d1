// IEEE 754's binary64, worked out from bit patterns. A value is the logic's `Float` (specs/), of which
// each contract names the definition that its result equals. No function asks anything of its caller.
#![tactic(auto)]

ghost use Rattle.std.specs.Prelude.{◌≡◌, ◌&&◌};
ghost use Rattle.std.specs.Float.{binary64};
ghost use Rattle.std.specs.Float.Ieee.{to_bits, of_bits};
ghost use Rattle.ieee.specs.Parts.{magnitude, is_finite, maximum};

// x's bit pattern. Every NaN has the pattern 0x7ff8000000000000.
pub fn bits_of(x: f64) -> u64
    ensures { result ≡ to_bits binary64 x }
{
    std::num::f64_to_bits_with_nan(x)
}

// The value that has the bit pattern b. Every NaN pattern gives a NaN.
pub fn from_bits(b: u64) -> f64
    ensures { result ≡ of_bits binary64 b }
{
    std::num::f64_from_bits_with_nan(b)
}

// x without its sign. The library's `f64::abs` compares and takes two to three times as long.
pub fn abs(x: f64) -> f64
    ensures { result ≡ magnitude x }
{
    if x.is_nan() {
        x
    } else {
        f64::from_bits(f64::to_bits(x) & 0x7fff_ffff_ffff_ffff)
    }
}

// Whether x is neither a NaN nor an infinity.
pub fn is_finite(x: f64) -> bool
    ensures { result ≡ is_finite x }
{
    x.is_finite()
}

// Whether neither a nor b is a NaN or an infinity.
pub fn both_finite(a: f64, b: f64) -> bool
    ensures { result ≡ (is_finite a && is_finite b) }
{
    is_finite(a) && is_finite(b)
}

// The larger of a and b; where one of them is a NaN, the other, and of two zeros the first. The
// library's `f64::max` leaves open which of two zeros it gives. As one chain of `if` and `else` it
// takes a quarter longer.
pub fn max(a: f64, b: f64) -> f64
    ensures { result ≡ maximum a b }
{
    if a.is_nan() {
        return b;
    }
    if b.is_nan() {
        return a;
    }
    if a < b {
        return b;
    }
    a
}
