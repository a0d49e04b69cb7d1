// line.rs: the weighted total-least-squares line through points.
#![tactic(auto)]

ghost use Rattle.std.specs.Prelude.{◌≡◌, length};
ghost use Rattle.ieee.specs.Floats.{◌⊗◌};
ghost use Rattle.float_lists.specs.Sums.{at, sum_to};
ghost use Rattle.line_fit.specs.LineFit.{
  fit_finite,
  fit_line,
  fit_moments,
  fit_paired,
  half_angle_direction,
  scatter,
  principal_direction,
};

use line::Line2;
use number::Refusal;
use pixel::{Direction, SourcePixel};

// Rust's `f64::EPSILON`: points whose spread is no larger lie on one spot.
const EPSILON: f64 = 2.220446049250313e-16;

// The scatter of points around their centroid.
#[derive(Clone, Copy)]
pub struct Moments {
    pub sxx: f64,
    pub sxy: f64,
    pub syy: f64,
}

// Points, lent as a list of each coordinate and one of their weights.
#[derive(Clone, Copy)]
pub struct Points<'a> {
    pub xs: &'a [f64],
    pub ys: &'a [f64],
    pub weights: &'a [f64],
    ghost ys_too: { length ys.now ≡ length xs.now },
    ghost weights_too: { length weights.now ≡ length xs.now },
}

// The direction at half the angle of (a, b), whose length is h. The larger part is a root and the smaller
// one a quotient by it, since the root of a small difference would lose digits.
fn half_angle_direction(a: f64, b: f64, h: f64) -> Direction
    ensures { result ≡ half_angle_direction a b h }
{
    if a >= 0.0 {
        let c = ieee_root::sqrt((h + a) / (2.0 * h));
        return Direction {
            x: c,
            y: b / (2.0 * h * c),
        };
    }
    let m = ieee_root::sqrt((h - a) / (2.0 * h));
    if b >= 0.0 {
        return Direction {
            x: b / (2.0 * h * m),
            y: m,
        };
    }
    Direction {
        x: b / (2.0 * h * -m),
        y: -m,
    }
}

// The direction of the larger spread; along x where no direction has more than another.
fn direction_of(m: Moments) -> Direction
    ensures { result ≡ principal_direction m }
{
    let a = m.sxx - m.syy;
    let b = 2.0 * m.sxy;
    let h = ieee_root::sqrt(a * a + b * b);
    if h == 0.0 {
        return Direction { x: 1.0, y: 0.0 };
    }
    half_angle_direction(a, b, h)
}

// The line through c along the principal direction of the moments.
fn fit_moments(c: SourcePixel, m: Moments) -> Result<Line2, Refusal>
    ensures { result ≡ fit_moments c m }
{
    if m.sxx + m.syy <= EPSILON {
        return Err(Refusal::Line);
    }
    if !ieee::both_finite(c.0, c.1) {
        return Err(Refusal::Overflow);
    }
    let d = direction_of(m);
    if !ieee::both_finite(d.x, d.y) {
        return Err(Refusal::Overflow);
    }
    Ok(Line2 {
        centroid: c,
        dir: d,
    })
}

// The sum of the values times their weights, from +0 and from the first on. By index: a `zip` takes 15 % longer.
fn weighted_sum(values: &[f64], weights: &[f64]) -> f64
    requires { length weights.now ≡ length values.now }
    ensures { result ≡ sum_to (length values.now) (λ i. at values.now i ⊗ at weights.now i) }
{
    let mut total = 0.0;
    for i in 0..values.len() {
        total = total + values[i] * weights[i];
    }
    total
}

impl<'a> Points<'a> {
    // The weighted second moments about c. By index: a `zip` takes 15 % longer.
    fn scatter(self, c: SourcePixel) -> Moments
        ensures { result ≡ scatter self.entry.xs.now self.entry.ys.now self.entry.weights.now c }
    {
        let mut sxx = 0.0;
        let mut sxy = 0.0;
        let mut syy = 0.0;
        for i in 0..self.xs.len() {
            let dx = self.xs[i] - c.0;
            let dy = self.ys[i] - c.1;
            let w = self.weights[i];
            sxx = sxx + w * dx * dx;
            sxy = sxy + w * dx * dy;
            syy = syy + w * dy * dy;
        }
        Moments { sxx, sxy, syy }
    }

    // The line through points and weights that are finite.
    fn fit_finite(self) -> Result<Line2, Refusal>
        ensures { result ≡ fit_finite self.entry.xs.now self.entry.ys.now self.entry.weights.now }
    {
        let total = float_lists::sum(self.weights);
        if total <= 0.0 || !float_lists::none_negative(self.weights) {
            return Err(Refusal::Weight);
        }
        let c = SourcePixel(
            weighted_sum(self.xs, self.weights) / total,
            weighted_sum(self.ys, self.weights) / total,
        );
        fit_moments(c, self.scatter(c))
    }

    // The line through the points.
    fn fit(self) -> Result<Line2, Refusal>
        ensures { result ≡ fit_paired self.entry.xs.now self.entry.ys.now self.entry.weights.now }
    {
        let finite = float_lists::all_finite(self.xs)
            && float_lists::all_finite(self.ys)
            && float_lists::all_finite(self.weights);
        if finite {
            self.fit_finite()
        } else {
            Err(Refusal::Finite)
        }
    }
}

// The line through the points (x, y) with these weights. Three lists, as C and the Rust lend them.
pub fn fit_line_tls_weighted(xs: &[f64], ys: &[f64], weights: &[f64]) -> Result<Line2, Refusal>
    ensures { result ≡ fit_line xs.now ys.now weights.now }
{
    if xs.len() < 2 || ys.len() < 2 {
        return Err(Refusal::Points);
    }
    if xs.len() == ys.len() && xs.len() == weights.len() {
        Points { xs, ys, weights }.fit()
    } else {
        Err(Refusal::Pairing)
    }
}
