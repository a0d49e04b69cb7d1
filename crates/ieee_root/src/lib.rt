// The square root of binary64: a root is guessed by float arithmetic, of which nothing is proved, and
// tested on whole numbers. Where the tests refuse the guess and its neighbours, the root is worked out
// by its digits.
#![tactic(auto)]

ghost use Rattle.std.specs.Prelude.{true, ◌≡◌, ℕ, Float, slice_index_or, ◌+◌, ◌*◌, ◌/◌, ◌%◌, ◌^◌, ◌≤◌, ◌<◌};
ghost use Rattle.std.specs.Float.{binary64};
ghost use Rattle.ieee_root.specs.Root.{root, root_units, NearRoot};

// A number of 53 binary digits, as a normal value has.
#[derive(Clone, Copy)]
struct Mantissa {
    digits: u64,
    ghost normal: { (2 ^ 52 ≤ digits) × (digits < 2 ^ 53) },
}

// A number whose root has 53 binary digits before the point once it is taken times 2^26.
#[derive(Clone, Copy)]
struct Radicand {
    value: u64,
    ghost bounds: { (2 ^ 52 ≤ value) × (value + 1 < 2 ^ 54) },
}

impl Mantissa {
    // Of the normal value that has the bit pattern b: the leading one, which the pattern leaves out,
    // and the 52 digits below it.
    fn of_bits(b: u64) -> Mantissa
        ensures { result.digits ≡ 2 ^ 52 + b % 2 ^ 52 }
    {
        let digits = (b & 0xf_ffff_ffff_ffff) | 0x10_0000_0000_0000;
        Mantissa { digits }
    }

    // m * 2^p, for a p of 0 or 1.
    fn shifted(self, p: u64) -> Radicand
        requires parity { p < 2 }
        ensures { result.value ≡ self.digits * 2 ^ p }
    {
        Radicand {
            value: self.digits << p,
        }
    }
}

// The square root of x.
#[tactic(auto, using(crate::proofs::Inputs::above_unsigned))]
pub fn sqrt(x: f64) -> f64
    ensures { result ≡ root binary64 x }
{
    let guess = if x > 0.0 {
        newton_root(x, f64::to_bits(x))
    } else {
        x
    };
    tested_root(x, guess)
}

// The square roots of values. All are guessed before the first guess is tested: a guess has no
// branches, so that a processor works out two at once.
pub fn roots<const N: usize>(xs: [f64; N]) -> [f64; N]
    ensures { (i : ℕ) (x : Float) (r : Float) → i < N →
        slice_index_or result i r ≡ root binary64 (slice_index_or xs.entry i x) }
{
    let guesses = quick_roots(xs);
    let mut all = guesses;
    for k in 0..N {
        all[k] = tested_root(xs[k], guesses[k]);
    }
    all
}

// The square root of x: the guess, where the tests accept it.
fn tested_root(x: f64, guess: f64) -> f64
    ensures { result ≡ root binary64 x }
{
    if x > 0.0 {
        let b = f64::to_bits(x);
        if b < 0x10_0000_0000_0000 {
            let s = u64::leading_zeros(b) - 11;
            return scaled_root(Mantissa { digits: b << s }, 1074 - (s as u64));
        }
        if b >> 52 == 2047 {
            return x;
        }
        return normal_root(b, guess);
    }
    if x == 0.0 {
        return x;
    }
    0.0 / 0.0
}

// The root of the normal value that has the bit pattern b. The guess is returned as it is: so nothing
// has to wait for the test, which the processor expects to pass.
fn normal_root(b: u64, guess: f64) -> f64
    requires normal { (2 ^ 52 ≤ b) × (b / 2 ^ 52 < 2047) }
    ensures { result ≡ root_units binary64 ((2 ^ 52 + b % 2 ^ 52) * 2 ^ (b / 2 ^ 52 + 1073)) }
{
    let m = Mantissa::of_bits(b);
    let g = (b >> 52) + 1073;
    if is_root(guess, m, g) {
        return guess;
    }
    scaled_root(m, g)
}

// Whether r is shown to be the root of m * 2^g, both in units of 2^-1074: whether it has the
// exponent that `scaled_root` gives the root, and the root's digits.
fn is_root(r: f64, m: Mantissa, g: u64) -> bool
    requires exponent { (1022 ≤ g) × (g < 3121) }
    ensures { result ≡ true → r ≡ root_units binary64 (m.digits * 2 ^ g) }
{
    let b = ieee::bits_of(r);
    b >> 52 == g / 2 - 25 && is_near_root(m.shifted(g % 2), Mantissa::of_bits(b).digits)
}

// The root of m * 2^g, both in units of 2^-1074.
fn scaled_root(m: Mantissa, g: u64) -> f64
    requires exponent { (1022 ≤ g) × (g < 3121) }
    ensures { result ≡ root_units binary64 (m.digits * 2 ^ g) }
{
    let r = rounded_root(m, g % 2);
    f64::from_bits(((g / 2 - 26) << 52) + r)
}

// The whole number nearest to the square root of m * 2^p * 2^52: the guess or a neighbour of it.
// Where it is none of them, for which no m is known, the digits are worked out one by one.
fn rounded_root(m: Mantissa, p: u64) -> u64
    requires parity { p < 2 }
    ensures { NearRoot (m.digits * 2 ^ p * 2 ^ 52) result }
{
    let a = m.shifted(p);
    let q = guess(m, p).digits;
    if is_near_root(a, q) {
        return q;
    }
    if is_near_root(a, q + 1) {
        return q + 1;
    }
    if is_near_root(a, q - 1) {
        return q - 1;
    }
    digits_root(a)
}

// Whether q is the whole number nearest to the square root of n = a * 2^52: whether n is at most
// q * q + q and above q * q - q.
fn is_near_root(a: Radicand, q: u64) -> bool
    requires number { q < 2 ^ 54 }
    ensures { result ≡ true → NearRoot (a.value * 2 ^ 52) q }
{
    let n = u128::from(a.value) << 52;
    let q = u128::from(q);
    n <= q * q + q && q * q < n + q
}

// A guess at the square root of m * 2^p * 2^52, by the float m * 2^p: its root has the same digits.
fn guess(m: Mantissa, p: u64) -> Mantissa
    requires parity { p < 2 }
{
    let b = ((1074 + p) << 52) + m.digits;
    Mantissa::of_bits(ieee::bits_of(newton_root(ieee::from_bits(b), b)))
}

// Guesses at the roots of values.
fn quick_roots<const N: usize>(xs: [f64; N]) -> [f64; N] {
    let mut all = xs;
    for k in 0..N {
        all[k] = quick_root(xs[k]);
    }
    all
}

// A guess at the root of x, which is of use where x is a normal value above 0. It chooses the value
// and not the guess, so that nothing branches; a single root has no need of that.
#[tactic(auto, using(crate::proofs::Inputs::above_unsigned, crate::proofs::Inputs::zero_unsigned))]
fn quick_root(x: f64) -> f64 {
    let y = if x > 0.0 { x } else { 0.0 };
    newton_root(y, f64::to_bits(y))
}

// A guess at the root of the normal value x, which has the bit pattern b: right in 9,987 of 10,000
// runs and a neighbour in the rest, but not by proof. Newton's method for y, one over the root,
// from what b gives, which is within 3.5 %; each step's 1.5 is raised by about half of the most
// that it would fall short. Then what s = x * y lacks of the root follows from what its square
// lacks of x. The square is that of `upper`, whose few digits leave nothing to round, and the
// difference of the two. So that less has to wait, `upper` is taken from the first step, by adding
// and taking away again what has no room for the lower digits, and products are kept apart.
fn newton_root(x: f64, b: u64) -> f64
    requires positive { b < 2 ^ 63 }
{
    let h = x * 0.5;
    let y0 = f64::from_bits(0x5fe6_eb50_c7b5_37a9 - (b >> 1));
    let y1 = 1.50088 * y0 - h * y0 * (y0 * y0);
    let first = x * y1;
    let far = first * 134217729.0;
    let upper = far - (far - first);
    let y = 1.5000005 * y1 - h * y1 * (y1 * y1);
    let s = x * y;
    let rest = x - upper * upper - (s - upper) * (s + upper);
    s + rest * (0.875 * y - 0.375 * y * (s * y))
}

// The whole number nearest to the square root of a * 2^52, by the digits of the root from the
// highest: the digits of a * 2^52 come down two at a time from `rest`.
fn digits_root(a: Radicand) -> u64
    ensures { NearRoot (a.value * 2 ^ 52) result }
{
    let mut rest: u64 = a.value << 10;
    let mut q: u64 = 0;
    let mut r: u64 = 0;
    for _digit in 0..53u64 {
        let d = r * 4 + (rest >> 62);
        let t = q * 4 + 1;
        rest <<= 2;
        if d < t {
            q = q * 2;
            r = d;
        } else {
            q = q * 2 + 1;
            r = d - t;
        }
    }
    if r > q { q + 1 } else { q }
}
