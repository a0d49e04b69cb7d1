// The whole part of a binary64 value: floor, ceiling and `as u32`. No public function asks anything of its caller.
#![tactic(auto)]

ghost use Rattle.std.specs.Prelude.{◌≡◌, true};
ghost use Rattle.std.specs.Float.Ieee.{to_unsigned};
ghost use Rattle.ieee.specs.Floats.{f0, ◌≼◌};
ghost use Rattle.ieee_whole.specs.Whole.{floor_of, ceil_of, split_whole, if_between, split_between};

// A value's whole part, and what is left of it: its fraction, where the value is in the range of the whole part.
#[derive(Clone, Copy)]
pub struct Split {
    pub whole: u32,
    pub left: f64,
}

// The largest whole number that is at most x.
pub fn floor(x: f64) -> f64
    ensures { result ≡ floor_of x }
{
    x.floor()
}

// The smallest whole number that is at least x.
pub fn ceil(x: f64) -> f64
    ensures { result ≡ ceil_of x }
{
    x.ceil()
}

// A first guess at x without its fraction, right in most runs but not by proof: `whole_part` tests it. The sum has no
// room for a fraction and is rounded to the nearest whole number; the half that 2^52 lacks makes that the one below x.
fn whole_guess(x: f64) -> u32
    requires { (f0 ≼ x) ≡ true }
{
    (f64::to_bits(x + 4503599627370495.5) & 0xffff_ffff) as u32
}

// x without its fraction, by the digits of its bit pattern. `std::num::saturating_f64_to_u32` in its place
// made `whole_part` a tenth slower where the guess fails.
fn whole_digits(x: f64) -> u32
    requires { (f0 ≼ x) ≡ true }
    ensures { result ≡ to_unsigned 32 x }
{
    if x > 4294967295.0 {
        return 4294967295;
    }
    std::num::truncating_f64_to_u64(x) as u32
}

// x's whole part and what is left of x, by the digits.
#[tactic(auto, using(crate::proofs::Trimmed::nothing))]
fn split_digits(x: f64) -> Split
    ensures { result ≡ split_whole x }
{
    let whole: u32 = if x >= 0.0 { whole_digits(x) } else { 0 };
    Split {
        whole,
        left: x - whole as f64,
    }
}

// x's whole part and what is left of x. The test of the guess has worked out what is left already.
pub fn split_whole(x: f64) -> Split
    ensures { result ≡ split_whole x }
{
    if x >= 0.0 {
        let guess = whole_guess(x);
        let left = x - guess as f64;
        if guess as f64 <= x && left < 1.0 {
            return Split { whole: guess, left };
        }
    }
    split_digits(x)
}

// The split, where what is left lies between 0 and 1.
fn if_between(split: Split) -> Option<Split>
    ensures { result ≡ if_between split }
{
    if split.left > 0.0 && split.left < 1.0 {
        Some(split)
    } else {
        None
    }
}

// x split where it lies between two whole numbers. Only what lies between 0 and 1 has a square below
// it, so that one test of what is left tells both that it does and that the guess was right.
pub fn split_between(x: f64) -> Option<Split>
    ensures { result ≡ split_between x }
{
    if x >= 0.0 {
        let guess = whole_guess(x);
        let left = x - guess as f64;
        if left * left < left {
            return Some(Split { whole: guess, left });
        }
    }
    if_between(split_digits(x))
}

// x without its fraction: Rust's `x as u32`. Beyond either end of the range it is that end, and 0
// for a NaN.
pub fn whole_part(x: f64) -> u32
    ensures { result ≡ to_unsigned 32 x }
{
    split_whole(x).whole
}
