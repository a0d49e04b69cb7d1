// Numbers and floats in the bytes of a card, the lowest byte first; bytes past the end of a slice are 0.
#![tactic(auto)]

ghost use Rattle.std.specs.Prelude.{◌≡◌, ◌+◌, ◌≤◌, ◌<◌, ◌^◌, min};
ghost use Rattle.fields.specs.Fields.{byte_at, number_at, float_at};

mod output; // output.rt: a buffer that is filled from its front

pub use output::Output;

// The byte at i; past the end of the slice 0.
pub fn byte_at(s: &[u8], i: usize) -> u64
    ensures { (result ≡ byte_at s.now i) × (result < 256) }
{
    s.get(i).copied().unwrap_or(0) as u64
}

// The number in the n bytes from i on, where 64 bits hold it.
fn number_within(s: &[u8], i: usize, n: usize) -> u64
    requires { (n ≤ 8) × (i + 8 < 2 ^ 64) }
    ensures { (result ≡ number_at n s.now i) × (result < 256 ^ n) }
{
    let mut v: u64 = 0;
    for k in (0..n).rev() {
        v = v * 256 + byte_at(s, i + k);
    }
    v
}

// The number in the n bytes from i on; of more than 8 bytes, in the first 8.
pub fn number_at(s: &[u8], i: usize, n: usize) -> u64
    ensures { (result ≡ number_at (min n 8) s.now i) × (result < 256 ^ min n 8) }
{
    if i < s.len() {
        number_within(s, i, n.min(8))
    } else {
        0
    }
}

// The float whose 8 bytes stand from i on.
pub fn float_at(s: &[u8], i: usize) -> f64
    ensures { result ≡ float_at s.now i }
{
    ieee::from_bits(number_at(s, i, 8))
}
