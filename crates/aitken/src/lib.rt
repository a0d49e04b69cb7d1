// refine.rs, `localize_edge_point`: where three passes tend.
#![tactic(auto)]

ghost use Rattle.std.specs.Prelude.{◌≡◌};
ghost use Rattle.aitken.specs.Aitken.{
  aitken as aitken_of,
  extrapolate as extrapolated,
  projection as projection_of,
};

use pixel::{Direction, EdgePoint, SourcePixel};

// What three passes come to: the third stands, or is moved along the normal, or nothing. Three cases, and so no `Option`.
#[derive(Clone, Copy)]
pub enum Extrapolated {
    Converged,
    Shifted(f64),
    Diverged,
}

// Aitken: how far from the third of three projections they tend.
fn extrapolate(step: f64, x0: f64, x1: f64, x2: f64) -> Extrapolated
    ensures { result ≡ extrapolated step x0 x1 x2 }
{
    let denom = x2 - 2.0 * x1 + x0;
    if ieee::abs(denom) < 1e-6 {
        return Extrapolated::Converged;
    }
    let correction = (x2 - x1) * (x2 - x1) / denom;
    if !ieee::is_finite(correction) || ieee::abs(correction) > step {
        return Extrapolated::Diverged;
    }
    Extrapolated::Shifted((x2 - correction) - x2)
}

// How far along the normal a place lies.
pub fn projection(normal: Direction, p: SourcePixel) -> f64
    ensures { result ≡ projection_of normal p }
{
    p.0 * normal.x + p.1 * normal.y
}

// The third of three points, moved to where their projections tend, or none where those tend to nothing near.
pub fn aitken(normal: Direction, step: f64, p: EdgePoint, xs: [f64; 3]) -> Option<EdgePoint>
    ensures { result ≡ aitken_of normal step p xs }
{
    match extrapolate(step, xs[0], xs[1], xs[2]) {
        Extrapolated::Converged => Some(p),
        Extrapolated::Shifted(along) => Some(EdgePoint {
            pos: SourcePixel(p.pos.0 + normal.x * along, p.pos.1 + normal.y * along),
            weight: p.weight,
        }),
        Extrapolated::Diverged => None,
    }
}
