// What every crate above shares and the Rust has from its own library.
#![tactic(auto)]

ghost use Rattle.std.specs.Prelude.{◌≡◌, ◌≤◌};
ghost use Rattle.prelude.specs.Prelude.{bit as bit_of};

// A truth value as a number, 0 or 1: the library's `u32::from`, under the name that contracts of the C layer say.
pub fn bit(b: bool) -> u32
    ensures { (result ≡ bit_of b) × (result ≤ 1) }
{
    u32::from(b)
}
