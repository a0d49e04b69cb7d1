// line.rs: a line, and the crossing of two lines.
#![tactic(auto)]

ghost use Rattle.std.specs.Prelude.{◌≡◌};
ghost use Rattle.line.specs.Line.{crossing, cross_answer};

use number::Refusal;
use pixel::{Direction, SourcePixel};

// Directions whose cross product is smaller are parallel: their angle is under 1e-9.
const PARALLEL_CROSS: f64 = 1e-9;

// A line: the points' weighted centroid, and the unit direction.
#[derive(Clone, Copy)]
pub struct Line2 {
    pub centroid: SourcePixel,
    pub dir: Direction,
}

// Where two lines cross, if they do, as a place on the first: along the second it would have other bits.
pub fn cross_lines(a: Line2, b: Line2) -> Option<SourcePixel>
    ensures { result ≡ crossing a b }
{
    let cross = a.dir.x * b.dir.y - a.dir.y * b.dir.x;
    if !ieee::is_finite(cross) || ieee::abs(cross) < PARALLEL_CROSS {
        return None;
    }
    let dx = b.centroid.0 - a.centroid.0;
    let dy = b.centroid.1 - a.centroid.1;
    let distance = (dx * b.dir.y - dy * b.dir.x) / cross;
    Some(SourcePixel(
        a.centroid.0 + distance * a.dir.x,
        a.centroid.1 + distance * a.dir.y,
    ))
}

// The crossing by itself.
pub fn intersect_lines(a: Line2, b: Line2) -> Result<SourcePixel, Refusal>
    ensures { result ≡ cross_answer (crossing a b) }
{
    cross_lines(a, b).ok_or(Refusal::Parallel)
}
