// homography.rs: a map of the label, where it sends a point, and the maps that are made of maps.
#![tactic(auto)]

ghost use Rattle.std.specs.Prelude.{◌≡◌};
ghost use Rattle.homography.specs.Homography.{composed, dot, inverse, map_point, scaled};

use pixel::SourcePixel;

// (u, v) goes to ((a11 u + a21 v + a31) / w, (a12 u + a22 v + a32) / w), w = a13 u + a23 v + a33.
// Nine names and no array, as in the Rust.
#[derive(Clone, Copy)]
pub struct PerspectiveTransform {
    pub a11: f64,
    pub a21: f64,
    pub a31: f64,
    pub a12: f64,
    pub a22: f64,
    pub a32: f64,
    pub a13: f64,
    pub a23: f64,
    pub a33: f64,
}

// A column of a map's matrix.
#[derive(Clone, Copy)]
struct Column(f64, f64, f64);

impl PerspectiveTransform {
    // Where (u, v) goes, two numbers as in the Rust. On the map's horizon w is 0 and the place infinite or a NaN: the
    // callers test what they use.
    pub fn map(self, u: f64, v: f64) -> SourcePixel
        ensures { result ≡ map_point self u v }
    {
        let w = self.a13 * u + self.a23 * v + self.a33;
        SourcePixel(
            (self.a11 * u + self.a21 * v + self.a31) / w,
            (self.a12 * u + self.a22 * v + self.a32) / w,
        )
    }

    // (u, v) to (sx u, sy v). Two numbers, as in the Rust.
    pub fn scaled(sx: f64, sy: f64) -> PerspectiveTransform
        ensures { result ≡ scaled sx sy }
    {
        PerspectiveTransform {
            a11: sx,
            a21: 0.0,
            a31: 0.0,
            a12: 0.0,
            a22: sy,
            a32: 0.0,
            a13: 0.0,
            a23: 0.0,
            a33: 1.0,
        }
    }

    // The adjugate: the inverse up to a scale, which a map does not see.
    pub fn inverse(self) -> PerspectiveTransform
        ensures { result ≡ inverse self }
    {
        PerspectiveTransform {
            a11: self.a22 * self.a33 - self.a23 * self.a32,
            a21: self.a23 * self.a31 - self.a21 * self.a33,
            a31: self.a21 * self.a32 - self.a22 * self.a31,
            a12: self.a13 * self.a32 - self.a12 * self.a33,
            a22: self.a11 * self.a33 - self.a13 * self.a31,
            a32: self.a12 * self.a31 - self.a11 * self.a32,
            a13: self.a12 * self.a23 - self.a13 * self.a22,
            a23: self.a13 * self.a21 - self.a11 * self.a23,
            a33: self.a11 * self.a22 - self.a12 * self.a21,
        }
    }

    // The map's matrix times a column.
    fn times(self, x: f64, y: f64, z: f64) -> Column
        ensures first { result.0 ≡ dot self.a11 self.a21 self.a31 x y z }
        ensures second { result.1 ≡ dot self.a12 self.a22 self.a32 x y z }
        ensures third { result.2 ≡ dot self.a13 self.a23 self.a33 x y z }
    {
        Column(
            self.a11 * x + self.a21 * y + self.a31 * z,
            self.a12 * x + self.a22 * y + self.a32 * z,
            self.a13 * x + self.a23 * y + self.a33 * z,
        )
    }

    // This map first and `outer` after it: the matrix product of outer and this.
    pub fn then(self, outer: PerspectiveTransform) -> PerspectiveTransform
        ensures { result ≡ composed self outer }
    {
        let first = outer.times(self.a11, self.a12, self.a13);
        let second = outer.times(self.a21, self.a22, self.a23);
        let third = outer.times(self.a31, self.a32, self.a33);
        PerspectiveTransform {
            a11: first.0,
            a21: second.0,
            a31: third.0,
            a12: first.1,
            a22: second.1,
            a32: third.1,
            a13: first.2,
            a23: second.2,
            a33: third.2,
        }
    }
}
