// What the calls for C and Rust read of the lists that they are lent. bindings/trufolmesca.h says what each list holds.
#![tactic(auto)]

ghost use Rattle.std.specs.Prelude.{◌≡◌};
ghost use Rattle.c_lists.specs.Lent.{float_at, quad_of, working_of, map_of, line_of};

use homography::PerspectiveTransform;
use line::Line2;
use pixel::{Direction, SourcePixel, WorkingPixel};

// The number at an index of a list; past the list's end a NaN, which a call treats as any other NaN.
pub fn float_at(s: &[f64], i: usize) -> f64
    ensures { result ≡ float_at s.now i }
{
    s.get(i).copied().unwrap_or(f64::NAN)
}

// Where the x and the y of four corners stand in a list, from x0, y0 to x3, y3.
const PLACES: [(usize, usize); 4] = [(0, 1), (2, 3), (4, 5), (6, 7)];

// Four corners in source pixels.
pub fn quad_of(s: &[f64]) -> [SourcePixel; 4]
    ensures { result ≡ quad_of s.now }
{
    PLACES.map(|(x, y)| SourcePixel(float_at(s, x), float_at(s, y)))
}

// Four corners in working pixels. What makes a pixel would be longer as a parameter than this line.
pub fn working_of(s: &[f64]) -> [WorkingPixel; 4]
    ensures { result ≡ working_of s.now }
{
    PLACES.map(|(x, y)| WorkingPixel(float_at(s, x), float_at(s, y)))
}

// A map, from its nine numbers row by row: a11, a21, a31 first.
pub fn map_of(s: &[f64]) -> PerspectiveTransform
    ensures { result ≡ map_of s.now }
{
    PerspectiveTransform {
        a11: float_at(s, 0),
        a21: float_at(s, 1),
        a31: float_at(s, 2),
        a12: float_at(s, 3),
        a22: float_at(s, 4),
        a32: float_at(s, 5),
        a13: float_at(s, 6),
        a23: float_at(s, 7),
        a33: float_at(s, 8),
    }
}

// A line, from its centroid and its direction.
pub fn line_of(s: &[f64]) -> Line2
    ensures { result ≡ line_of s.now }
{
    Line2 {
        centroid: SourcePixel(float_at(s, 0), float_at(s, 1)),
        dir: Direction {
            x: float_at(s, 2),
            y: float_at(s, 3),
        },
    }
}
