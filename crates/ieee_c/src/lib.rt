// `ieee` for programs in C: bench/ieee times it.
#![tactic(auto)]

ghost use Rattle.std.specs.Prelude.{◌≡◌};
ghost use Rattle.std.specs.Float.{binary64};
ghost use Rattle.std.specs.Float.Ieee.{to_bits, of_bits, to_unsigned};
ghost use Rattle.ieee.specs.Parts.{magnitude, is_finite, maximum};
ghost use Rattle.ieee_whole.specs.Whole.{floor_of, ceil_of};
ghost use Rattle.ieee_root.specs.Root.{root};

// `ieee::bits_of` for C.
#[unsafe(no_mangle)]
pub extern "C" fn ieee_bits_of(x: f64) -> u64
    ensures { result ≡ to_bits binary64 x }
{
    ieee::bits_of(x)
}

// `ieee::from_bits` for C.
#[unsafe(no_mangle)]
pub extern "C" fn ieee_from_bits(b: u64) -> f64
    ensures { result ≡ of_bits binary64 b }
{
    ieee::from_bits(b)
}

// `ieee::abs` for C.
#[unsafe(no_mangle)]
pub extern "C" fn ieee_abs(x: f64) -> f64
    ensures { result ≡ magnitude x }
{
    ieee::abs(x)
}

// `ieee::is_finite` for C.
#[unsafe(no_mangle)]
pub extern "C" fn ieee_is_finite(x: f64) -> bool
    ensures { result ≡ is_finite x }
{
    ieee::is_finite(x)
}

// `ieee::max` for C.
#[unsafe(no_mangle)]
pub extern "C" fn ieee_max(a: f64, b: f64) -> f64
    ensures { result ≡ maximum a b }
{
    ieee::max(a, b)
}

// `ieee_whole::floor` for C.
#[unsafe(no_mangle)]
pub extern "C" fn ieee_floor(x: f64) -> f64
    ensures { result ≡ floor_of x }
{
    ieee_whole::floor(x)
}

// `ieee_whole::ceil` for C.
#[unsafe(no_mangle)]
pub extern "C" fn ieee_ceil(x: f64) -> f64
    ensures { result ≡ ceil_of x }
{
    ieee_whole::ceil(x)
}

// `ieee_root::sqrt` for C.
#[unsafe(no_mangle)]
pub extern "C" fn ieee_sqrt(x: f64) -> f64
    ensures { result ≡ root binary64 x }
{
    ieee_root::sqrt(x)
}

// `ieee_whole::whole_part` for C.
#[unsafe(no_mangle)]
pub extern "C" fn ieee_whole_part(x: f64) -> u32
    ensures { result ≡ to_unsigned 32 x }
{
    ieee_whole::whole_part(x)
}
