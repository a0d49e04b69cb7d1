// The arctangent, by a table and three terms of its series.
#![tactic(auto)]

ghost use Rattle.std.specs.Prelude.{◌≡◌};
ghost use Rattle.arctan.specs.Arctan.{angle as angle_of, arctangent_to_1, arctangent};

// The table's arctangent of i / 256. A signed number is one instruction from a float.
fn angle(i: u32) -> f64
    ensures { result ≡ angle_of i }
{
    arctan_table::entry(i) as i64 as f64 / 4503599627370496.0
}

// The arctangent of a q from 0 to 1: the table's of a value at or below q, and the angle between.
fn arctan_to_1(q: f64) -> f64
    ensures { result ≡ arctangent_to_1 q }
{
    let i = ieee_whole::whole_part(q * 256.0);
    let c = i as f64 / 256.0;
    let t = (q - c) / (1.0 + q * c);
    let cube = t * t * t;
    angle(i) + t - cube / 3.0 + cube * t * t / 5.0
}

// The arctangent of a ratio r that is at least 0. Of a NaN it is a NaN, with nothing looked up.
#[tactic(auto, using(crate::proofs::Numbers::nan_only), unfolding(crate::specs::Arctan::arctangent))]
pub fn arctan(r: f64) -> f64
    ensures { result ≡ arctangent r }
{
    if r.is_nan() {
        return r;
    }
    if r > 1.0 {
        return 2.0 * angle(256) - arctan_to_1(1.0 / r);
    }
    arctan_to_1(r)
}
