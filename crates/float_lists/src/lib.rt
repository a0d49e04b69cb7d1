// Tests of all the floats of a list, and their sum.
#![tactic(auto)]

ghost use Rattle.std.specs.Prelude.{◌≡◌};
ghost use Rattle.float_lists.specs.Sums.{finite, not_negative, total};

// Whether all of a list are finite.
pub fn all_finite(values: &[f64]) -> bool
    ensures { result ≡ finite values.now }
{
    values.iter().all(|x| ieee::is_finite(*x))
}

// Whether no weight is below 0.
pub fn none_negative(weights: &[f64]) -> bool
    ensures { result ≡ not_negative weights.now }
{
    weights.iter().all(|w| !(*w < 0.0))
}

// The sum of the values, from +0 and from the first on: `sum` of std would begin at -0.
pub fn sum(values: &[f64]) -> f64
    ensures { result ≡ total values.now }
{
    values.iter().fold(0.0, |total, x| total + *x)
}
