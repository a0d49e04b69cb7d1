// camera.rs: from a rectified place to the source picture, for no lens, Brown-Conrady and fisheye.
#![tactic(auto)]

ghost use Rattle.std.specs.Prelude.{◌≡◌, ◌<◌, ℕ, Option, Some, option_map, slice_index_or};
ghost use Rattle.pixel.specs.declared.SourcePixel.{SourcePixel};
ghost use Rattle.camera.specs.declared.Normalized.{Normalized};
ghost use Rattle.camera.specs.Together.{through_fisheye};
ghost use Rattle.camera.specs.Camera.{valid_intrinsics, valid_lens, valid_camera, is_none, is_identity, distorted, on_plane, in_pixels, projected, carried, if_finite, rectified_to_source, camera_answer};

mod fisheye;

use number::Refusal;
use pixel::SourcePixel;

// Pinhole intrinsics in pixels, with integer pixel centres and zero skew. Rust's `==` of them: -0 equals 0.
#[derive(Clone, Copy, PartialEq)]
pub struct CameraIntrinsics {
    pub fx: f64,
    pub fy: f64,
    pub cx: f64,
    pub cy: f64,
}

// The lens, on coordinates of the picture plane before the intrinsics. Kinds of lens, and so no `Option` of one.
#[derive(Clone, Copy)]
pub enum LensDistortion {
    None,
    BrownConrady {
        k1: f64,
        k2: f64,
        p1: f64,
        p2: f64,
        k3: f64,
    },
    // Four zeros still are a lens, the equidistant one.
    Fisheye {
        k1: f64,
        k2: f64,
        k3: f64,
        k4: f64,
    },
}

// The source picture's intrinsics, those of the rectified picture, and the lens.
#[derive(Clone, Copy)]
pub struct CameraCalibration {
    pub intrinsics: CameraIntrinsics,
    pub rectified: CameraIntrinsics,
    pub distortion: LensDistortion,
}

// A place on the picture plane, before the intrinsics.
#[derive(Clone, Copy)]
pub struct Normalized(pub f64, pub f64);

impl CameraIntrinsics {
    // Finite numbers, and focal lengths above 0.
    fn valid(self) -> bool
        ensures { result ≡ valid_intrinsics self }
    {
        ieee::is_finite(self.fx)
            && ieee::is_finite(self.fy)
            && ieee::is_finite(self.cx)
            && ieee::is_finite(self.cy)
            && self.fx > 0.0
            && self.fy > 0.0
    }
}

impl LensDistortion {
    // Finite coefficients.
    fn valid(self) -> bool
        ensures { result ≡ valid_lens self }
    {
        match self {
            LensDistortion::None => true,
            LensDistortion::BrownConrady { k1, k2, p1, p2, k3 } => {
                ieee::is_finite(k1)
                    && ieee::is_finite(k2)
                    && ieee::is_finite(p1)
                    && ieee::is_finite(p2)
                    && ieee::is_finite(k3)
            }
            LensDistortion::Fisheye { k1, k2, k3, k4 } => {
                ieee::both_finite(k1, k2) && ieee::both_finite(k3, k4)
            }
        }
    }

    // Whether there is no lens: Brown-Conrady with five zeros is one, and so is every fisheye.
    fn is_none(self) -> bool
        ensures { result ≡ is_none self }
    {
        matches!(self, LensDistortion::None)
    }

    // Where the lens sends a place on the picture plane, if anywhere.
    fn distort(self, p: Normalized) -> Option<Normalized>
        ensures { result ≡ distorted self p.0 p.1 }
    {
        match self {
            LensDistortion::None => Some(p),
            LensDistortion::BrownConrady { k1, k2, p1, p2, k3 } => {
                let Normalized(x, y) = p;
                let r2 = x * x + y * y;
                let radial = 1.0 + r2 * (k1 + r2 * (k2 + r2 * k3));
                Some(Normalized(
                    x * radial + 2.0 * p1 * x * y + p2 * (r2 + 2.0 * x * x),
                    y * radial + p1 * (r2 + 2.0 * y * y) + 2.0 * p2 * x * y,
                ))
            }
            LensDistortion::Fisheye { k1, k2, k3, k4 } => fisheye::bent(k1, k2, k3, k4, p),
        }
    }
}

// A place, if both its coordinates are finite.
fn if_finite(p: SourcePixel) -> Option<SourcePixel>
    ensures { result ≡ if_finite p }
{
    if ieee::both_finite(p.0, p.1) {
        Some(p)
    } else {
        None
    }
}

// The places of a profile as they are. This array and those below are filled by an index: with `map`,
// which takes each element through an `Option`, a job through a lens took a seventh longer.
pub fn unmoved(places: [SourcePixel; 7]) -> [Option<SourcePixel>; 7]
    ensures { (i : ℕ) (p : SourcePixel) (q : Option SourcePixel) → i < 7 →
        slice_index_or result i q ≡ Some (slice_index_or places i p) }
{
    let mut all = [None; 7];
    for k in 0..7usize {
        all[k] = Some(places[k]);
    }
    all
}

impl CameraCalibration {
    // Not refused by `Lens`.
    pub fn valid(self) -> bool
        ensures { result ≡ valid_camera self }
    {
        self.intrinsics.valid() && self.rectified.valid() && self.distortion.valid()
    }

    // No lens, and both pictures have the same intrinsics: the camera changes nothing.
    pub fn is_identity(self) -> bool
        ensures { result ≡ is_identity self }
    {
        self.distortion.is_none() && self.intrinsics == self.rectified
    }

    // A rectified place on the picture plane.
    fn on_plane(self, p: SourcePixel) -> Normalized
        ensures { result ≡ on_plane self.rectified p }
    {
        Normalized(
            (p.0 - self.rectified.cx) / self.rectified.fx,
            (p.1 - self.rectified.cy) / self.rectified.fy,
        )
    }

    // A place of the picture plane in the source picture.
    fn in_pixels(self, d: Normalized) -> SourcePixel
        ensures { result ≡ in_pixels self.intrinsics d }
    {
        SourcePixel(
            self.intrinsics.fx * d.0 + self.intrinsics.cx,
            self.intrinsics.fy * d.1 + self.intrinsics.cy,
        )
    }

    // A place of the picture plane in the source picture, if there is one.
    fn if_in_pixels(self, d: Option<Normalized>) -> Option<SourcePixel>
        ensures { result ≡ option_map (in_pixels self.intrinsics) d }
    {
        match d {
            Some(n) => Some(self.in_pixels(n)),
            None => None,
        }
    }

    // Through the rectified picture's intrinsics, the lens, and the source picture's intrinsics. Put in
    // where it is called: out of line a job through Brown-Conrady took an eighth longer.
    #[inline(always)]
    pub fn project(self, p: SourcePixel) -> Option<SourcePixel>
        ensures { result ≡ projected self p }
    {
        self.if_in_pixels(self.distortion.distort(self.on_plane(p)))
    }

    // Where the steps of the camera carry a rectified place, finite or not.
    fn carried(self, p: SourcePixel) -> Option<SourcePixel>
        ensures { result ≡ carried self p }
    {
        if self.is_identity() {
            return Some(p);
        }
        self.project(p)
    }

    // Where a rectified place lies in the source picture. The camera is not tested here.
    fn place_in_source(self, p: SourcePixel) -> Option<SourcePixel>
        ensures { result ≡ rectified_to_source self p }
    {
        if !ieee::is_finite(p.0) || !ieee::is_finite(p.1) {
            return None;
        }
        if_finite(self.carried(p)?)
    }

    // Rectified places on the picture plane.
    fn on_planes(self, places: [SourcePixel; 7]) -> [Normalized; 7]
        ensures { (i : ℕ) (p : SourcePixel) (n : Normalized) → i < 7 →
            slice_index_or result i n ≡ on_plane self.rectified (slice_index_or places i p) }
    {
        let mut all = [Normalized(0.0, 0.0); 7];
        for k in 0..7usize {
            all[k] = self.on_plane(places[k]);
        }
        all
    }

    // Where a fisheye in the place of the camera's lens carries places. One place's steps wait for each
    // other, so each is done for all of them before the next.
    #[inline(never)]
    fn through_fisheye(
        self,
        k1: f64,
        k2: f64,
        k3: f64,
        k4: f64,
        places: [SourcePixel; 7],
    ) -> [Option<SourcePixel>; 7]
        ensures { (i : ℕ) (p : SourcePixel) (q : Option SourcePixel) → i < 7 →
            slice_index_or result i q ≡ through_fisheye self k1 k2 k3 k4 (slice_index_or places i p) }
    {
        let planes = self.on_planes(places);
        let distances = fisheye::distances(planes);
        let angles = fisheye::angles(distances);
        let mut all = [None; 7];
        for k in 0..7usize {
            let bent = fisheye::bent_at(k1, k2, k3, k4, planes[k], distances[k], angles[k]);
            all[k] = self.if_in_pixels(bent);
        }
        all
    }

    // Where the steps of the camera carry the places of a profile, finite or not: whether a place is
    // finite is asked where the sample falls. Whether the camera changes nothing is asked once: asked of
    // each place, a job through such a camera took two fifths longer.
    pub fn carried_profile(self, places: [SourcePixel; 7]) -> [Option<SourcePixel>; 7]
        ensures { (i : ℕ) (p : SourcePixel) (q : Option SourcePixel) → i < 7 →
            slice_index_or result i q ≡ carried self (slice_index_or places i p) }
    {
        if let LensDistortion::Fisheye { k1, k2, k3, k4 } = self.distortion {
            return self.through_fisheye(k1, k2, k3, k4, places);
        }
        if self.is_identity() {
            return unmoved(places);
        }
        let mut all = [None; 7];
        for k in 0..7usize {
            all[k] = self.project(places[k]);
        }
        all
    }

    // Where a rectified place lies in the source picture: `Lens` for a camera that is not valid, then
    // `Place` where there is no such place.
    pub fn rectified_to_source(self, p: SourcePixel) -> Result<SourcePixel, Refusal>
        ensures { result ≡ camera_answer self p }
    {
        if !self.valid() {
            return Err(Refusal::Lens);
        }
        self.place_in_source(p).ok_or(Refusal::Place)
    }
}
