// The two pixel scales, directions, and edge points. The geometry of the refinement is in source pixels, those of the
// photograph, or with a camera in rectified pixels, those of the picture that it rectifies to: where the Rust has
// `[f64; 2]` for a place, this has `SourcePixel`.
#![tactic(auto)]

ghost use Rattle.std.specs.Prelude.{◌≡◌};
ghost use Rattle.pixel.specs.Pixels.{to_source};

// A place in the picture that the decoder worked on, which may be smaller than the photograph.
#[derive(Clone, Copy)]
pub struct WorkingPixel(pub f64, pub f64);

// A place in the photograph; with a camera, in its rectified picture.
#[derive(Clone, Copy)]
pub struct SourcePixel(pub f64, pub f64);

// A vector: an edge's normal, or where a line points.
#[derive(Clone, Copy)]
pub struct Direction {
    pub x: f64,
    pub y: f64,
}

// A place on an edge, and how much it weighs in the edge's line.
#[derive(Clone, Copy)]
pub struct EdgePoint {
    pub pos: SourcePixel,
    pub weight: f64,
}

impl WorkingPixel {
    // The only way from one scale to the other: sx and sy are working pixels for each source pixel, or with a camera
    // for each rectified pixel. Two numbers, as in the Rust.
    pub fn to_source(self, sx: f64, sy: f64) -> SourcePixel
        ensures { result ≡ to_source sx sy self }
    {
        SourcePixel(self.0 / sx, self.1 / sy)
    }
}
