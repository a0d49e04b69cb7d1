// Numbers as text, put into an output; what does not fit is left out.
#![tactic(auto)]

ghost use Rattle.std.specs.Prelude.{◌∷◌};
ghost use Rattle.prelude.specs.Prelude.{bit};
ghost use Rattle.fields.specs.Output.{Writes};
ghost use Rattle.text.specs.Text.{
  decimal as decimal_of,
  hexadecimal as hexadecimal_of,
};

use fields::Output;

// Digits behind a space.
fn put_digits(out: &mut Output<'_>, digits: &[u8])
    ensures { Writes out.old out.new (32 ∷ digits.now) }
{
    out.put(b" ");
    out.put(digits);
}

// A number behind a space.
pub fn put_decimal(out: &mut Output<'_>, n: u64)
    ensures { Writes out.old out.new (decimal_of n) }
{
    let mut digits = [0u8; 20];
    let k = io::decimal(n, &mut digits);
    put_digits(out, &digits[..k]);
}

// 16 hexadecimal digits behind a space.
pub fn put_hexadecimal(out: &mut Output<'_>, n: u64)
    ensures { Writes out.old out.new (hexadecimal_of n) }
{
    let mut digits = [0u8; 16];
    let k = io::hex(n, 16, &mut digits);
    put_digits(out, &digits[..k]);
}

// A truth value as the digit 0 or 1, behind a space.
pub fn put_bit(out: &mut Output<'_>, b: bool)
    ensures { Writes out.old out.new (decimal_of (bit b)) }
{
    put_decimal(out, prelude::bit(b) as u64);
}
