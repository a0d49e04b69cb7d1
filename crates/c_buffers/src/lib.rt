// How the calls for C and Rust write values into the buffers that they are lent. bindings/trufolmesca.h says what each buffer holds.
#![tactic(auto)]

ghost use Rattle.std.specs.Prelude.{◌≡◌, set};
ghost use Rattle.c_buffers.specs.Buffers.{with_place, with_place_at, with_point, with_line, with_row, with_map};

use homography::PerspectiveTransform;
use line::Line2;
use pixel::{Direction, EdgePoint, SourcePixel};

// ---- what is written of a refusal: zeros

pub const ZERO_PLACE: SourcePixel = SourcePixel(0.0, 0.0);

pub const ZERO_POINT: EdgePoint = EdgePoint {
    pos: ZERO_PLACE,
    weight: 0.0,
};

pub const ZERO_LINE: Line2 = Line2 {
    centroid: ZERO_PLACE,
    dir: Direction { x: 0.0, y: 0.0 },
};

pub const ZERO_MAP: PerspectiveTransform = PerspectiveTransform {
    a11: 0.0,
    a21: 0.0,
    a31: 0.0,
    a12: 0.0,
    a22: 0.0,
    a32: 0.0,
    a13: 0.0,
    a23: 0.0,
    a33: 0.0,
};

// ---- the buffers

// Writes a value at an index; one past the buffer's end is left out.
pub fn put<T: Copy>(out: &mut [T], i: usize, x: T)
    ensures { out.new ≡ set out.old i x }
{
    if i < out.len() {
        out[i] = x;
    }
}

// Writes a place's x and y from an index on.
pub fn put_place_at(out: &mut [f64], at: u32, p: SourcePixel)
    ensures { out.new ≡ with_place_at at p out.old }
{
    let i = at as usize;
    put(out, i, p.0);
    put(out, i + 1, p.1);
}

// Writes a place's x and y to the front of a buffer.
pub fn put_place(out: &mut [f64], p: SourcePixel)
    ensures { out.new ≡ with_place p out.old }
{
    put_place_at(out, 0, p);
}

// Writes an edge point as x, y and weight.
pub fn put_point(out: &mut [f64], p: EdgePoint)
    ensures { out.new ≡ with_point p out.old }
{
    put_place(out, p.pos);
    put(out, 2, p.weight);
}

// Writes a line as its centroid and its direction.
pub fn put_line(out: &mut [f64], l: Line2)
    ensures { out.new ≡ with_line l out.old }
{
    put_place(out, l.centroid);
    put(out, 2, l.dir.x);
    put(out, 3, l.dir.y);
}

// Writes three values from an index on, which are a row of a map.
fn put_row(out: &mut [f64], at: u32, x: f64, y: f64, z: f64)
    ensures { out.new ≡ with_row at x y z out.old }
{
    let i = at as usize;
    put(out, i, x);
    put(out, i + 1, y);
    put(out, i + 2, z);
}

// Writes a map's nine numbers row by row: a11, a21, a31 first.
pub fn put_map(out: &mut [f64], m: PerspectiveTransform)
    ensures { out.new ≡ with_map m out.old }
{
    put_row(out, 0, m.a11, m.a21, m.a31);
    put_row(out, 3, m.a12, m.a22, m.a32);
    put_row(out, 6, m.a13, m.a23, m.a33);
}
