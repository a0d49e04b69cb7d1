// homography.rs: the map of the unit square to four corners, and of four corners to four others.
#![tactic(auto)]

ghost use Rattle.std.specs.Prelude.{◌≡◌};
ghost use Rattle.quad.specs.Quad.{affine, map_answer, projective, quad_to_quad, square_to_quad};

use homography::PerspectiveTransform;
use number::Refusal;
use pixel::SourcePixel;

// The map of the unit square (0, 0), (1, 0), (1, 1), (0, 1) to these corners.
pub fn square_to_quad(q: [SourcePixel; 4]) -> Result<PerspectiveTransform, Refusal>
    ensures { result ≡ map_answer (square_to_quad q) }
{
    quad_map(q).ok_or(Refusal::Quad)
}

// The map of one quad to another: back to the unit square, and on to the other.
pub fn quad_to_quad(
    from: [SourcePixel; 4],
    to: [SourcePixel; 4],
) -> Result<PerspectiveTransform, Refusal>
    ensures { result ≡ map_answer (quad_to_quad from to) }
{
    let source = square_to_quad(from)?;
    let target = square_to_quad(to)?;
    Ok(source.inverse().then(target))
}

// A parallelogram, which has no map where its area is 0.
fn affine_map(
    p0: SourcePixel,
    p1: SourcePixel,
    p2: SourcePixel,
    p3: SourcePixel,
) -> Option<PerspectiveTransform>
    ensures { result ≡ affine p0.0 p0.1 p1.0 p1.1 p2.0 p2.1 p3.0 p3.1 }
{
    let cross = (p1.0 - p0.0) * (p3.1 - p0.1) - (p1.1 - p0.1) * (p3.0 - p0.0);
    if cross == 0.0 {
        return None;
    }
    Some(PerspectiveTransform {
        a11: p1.0 - p0.0,
        a21: p2.0 - p1.0,
        a31: p0.0,
        a12: p1.1 - p0.1,
        a22: p2.1 - p1.1,
        a32: p0.1,
        a13: 0.0,
        a23: 0.0,
        a33: 1.0,
    })
}

// Any other corners (Heckbert).
fn projective_map(
    p0: SourcePixel,
    p1: SourcePixel,
    p2: SourcePixel,
    p3: SourcePixel,
    dx3: f64,
    dy3: f64,
) -> Option<PerspectiveTransform>
    ensures { result ≡ projective p0.0 p0.1 p1.0 p1.1 p2.0 p2.1 p3.0 p3.1 dx3 dy3 }
{
    let dx1 = p1.0 - p2.0;
    let dx2 = p3.0 - p2.0;
    let dy1 = p1.1 - p2.1;
    let dy2 = p3.1 - p2.1;
    let den = dx1 * dy2 - dx2 * dy1;
    if den == 0.0 {
        return None;
    }
    let a13 = (dx3 * dy2 - dx2 * dy3) / den;
    let a23 = (dx1 * dy3 - dx3 * dy1) / den;
    Some(PerspectiveTransform {
        a11: p1.0 - p0.0 + a13 * p1.0,
        a21: p3.0 - p0.0 + a23 * p3.0,
        a31: p0.0,
        a12: p1.1 - p0.1 + a13 * p1.1,
        a22: p3.1 - p0.1 + a23 * p3.1,
        a32: p0.1,
        a13,
        a23,
        a33: 1.0,
    })
}

// `square_to_quad` as the refinement calls it.
pub fn quad_map(q: [SourcePixel; 4]) -> Option<PerspectiveTransform>
    ensures { result ≡ square_to_quad q }
{
    let p0 = q[0];
    let p1 = q[1];
    let p2 = q[2];
    let p3 = q[3];
    let dx3 = p0.0 - p1.0 + p2.0 - p3.0;
    let dy3 = p0.1 - p1.1 + p2.1 - p3.1;
    if dx3 == 0.0 && dy3 == 0.0 {
        affine_map(p0, p1, p2, p3)
    } else {
        projective_map(p0, p1, p2, p3, dx3, dy3)
    }
}
