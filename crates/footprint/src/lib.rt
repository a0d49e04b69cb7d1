// sampling.rs and sample.rs: where a sample falls, worked out without the photograph.
#![tactic(auto)]

ghost use Rattle.std.specs.Prelude.{◌≡◌, ℕ, ◌+◌, ◌-◌, ◌<◌, min, ◌&&◌, not, true, Option, IfSome, slice_index_or};
ghost use Rattle.ieee.specs.Parts.{is_finite};
ghost use Rattle.ieee.specs.Floats.{◌≺◌, f0, float};
ghost use Rattle.pixel.specs.declared.SourcePixel.{SourcePixel};
ghost use Rattle.footprint.specs.Footprints.{inside, neighbour as neighbour_of, interior_cell, at_border, footprint as footprint_of, point_footprint, carried_through, good_view};
ghost use Rattle.footprint.specs.declared.BorderMode.TheVariants.{Reject};

use camera::CameraCalibration;
use pixel::SourcePixel;

// Behaviour outside the pixels' centres.
#[derive(Clone, Copy)]
pub enum BorderMode {
    // No sample.
    Reject,
    // The nearest place inside.
    Clamp,
    // A fixed value.
    Constant(u8),
}

// Where a sample falls: nowhere, on the constant border, or among four pixels. Where a fraction is 0
// the right column is the left one, or the lower row the upper one.
#[derive(Clone, Copy)]
pub enum Footprint {
    Rejected,
    Border(u8),
    Cell {
        x0: u32,
        y0: u32,
        x1: u32,
        y1: u32,
        fx: f64,
        fy: f64,
    },
}

// The camera that a photograph is seen through, if any.
pub type View = Option<CameraCalibration>;

// What all samples of a run share: the photograph's size, and the camera.
#[derive(Clone, Copy)]
pub struct Scene {
    pub width: u32,
    pub height: u32,
    pub view: View,
}

// ---- sampling.rs

// The column or row after i, and not past the last of n.
fn next(i: u32, n: u32) -> u32
    ensures { result ≡ min (i + 1) (n - 1) }
{
    let end = photograph::last(n);
    if i < end { i + 1 } else { end }
}

// The column or row after i where the fraction gives it weight, and else i.
fn neighbour(i: u32, n: u32, fraction: f64) -> u32
    ensures { result ≡ neighbour_of i n fraction }
{
    let after = next(i, n);
    if fraction == 0.0 { i } else { after }
}

// Whether a coordinate lies from 0 to `most`, which no NaN and no infinity does.
#[tactic(auto, using(crate::proofs::Footprints::between))]
fn is_within(x: f64, most: u32) -> bool
    ensures { result ≡ (is_finite x && not (x ≺ f0) && not (float most ≺ x)) }
{
    x >= 0.0 && x <= most as f64
}

// How wide and how high a picture is.
#[derive(Clone, Copy)]
struct Size {
    width: u32,
    height: u32,
}

impl Size {
    // Whether a place lies within the pixels' centres.
    #[tactic(auto, using(crate::proofs::Footprints::gathered))]
    fn is_inside(self, p: SourcePixel) -> bool
        ensures { result ≡ inside self.width self.height p.0 p.1 }
    {
        is_within(p.0, photograph::last(self.width))
            && is_within(p.1, photograph::last(self.height))
    }

    // The four pixels that a place inside the picture falls among, as far as they bear weight, and its
    // fractions.
    fn interior_cell(self, p: SourcePixel) -> Footprint
        ensures { result ≡ interior_cell self.width self.height p.0 p.1 }
    {
        let across = ieee_whole::split_whole(p.0);
        let down = ieee_whole::split_whole(p.1);
        Footprint::Cell {
            x0: across.whole,
            y0: down.whole,
            x1: neighbour(across.whole, self.width, across.left),
            y1: neighbour(down.whole, self.height, down.left),
            fx: across.left,
            fy: down.left,
        }
    }

    // Where a sample outside falls.
    #[tactic(auto, using(crate::proofs::Places::from_zero))]
    fn at_border(self, border: BorderMode, p: SourcePixel) -> Footprint
        ensures { result ≡ at_border self.width self.height border p.0 p.1 }
    {
        match border {
            BorderMode::Reject => Footprint::Rejected,
            BorderMode::Clamp => self.interior_cell(SourcePixel(
                p.0.clamp(0.0, photograph::last(self.width) as f64),
                p.1.clamp(0.0, photograph::last(self.height) as f64),
            )),
            BorderMode::Constant(v) => Footprint::Border(v),
        }
    }

    // The four pixels around a place inside whose coordinates both lie between whole numbers: all four
    // bear weight, and neither the column nor the row is the last.
    #[tactic(auto, using(crate::proofs::Inner::inner_places))]
    fn inner_cell(self, p: SourcePixel) -> Option<Footprint>
        requires { inside self.width self.height p.0 p.1 ≡ true }
        ensures { IfSome result (λ cell. cell ≡ interior_cell self.width self.height p.0 p.1) }
    {
        let across = ieee_whole::split_between(p.0)?;
        let down = ieee_whole::split_between(p.1)?;
        Some(Footprint::Cell {
            x0: across.whole,
            y0: down.whole,
            x1: across.whole + 1,
            y1: down.whole + 1,
            fx: across.left,
            fy: down.left,
        })
    }

    // Where a sample falls with the border rejected. Nearly always both coordinates lie between whole
    // numbers, so that is asked first. By a match: with `unwrap_or_else` it took twice as long.
    #[tactic(auto, using(crate::proofs::Footprints::in_within, crate::proofs::Footprints::rejected))]
    fn rejecting_footprint(self, p: SourcePixel) -> Footprint
        ensures { result ≡ footprint_of self.width self.height Reject p.0 p.1 }
    {
        if !self.is_inside(p) {
            return Footprint::Rejected;
        }
        match self.inner_cell(p) {
            Some(cell) => cell,
            None => self.interior_cell(p),
        }
    }
}

// Where a sample falls. Nearly all fall inside, so that is asked first; the order of the tests does not show. Width and
// height go side by side, as `photograph` says.
#[tactic(auto, using(crate::proofs::Footprints::in_within, crate::proofs::Footprints::off_outside), unfolding(crate::specs::Footprints::footprint))]
pub fn footprint_at(width: u32, height: u32, border: BorderMode, x: f64, y: f64) -> Footprint
    ensures { result ≡ footprint_of width height border x y }
{
    let size = Size { width, height };
    let p = SourcePixel(x, y);
    if size.is_inside(p) {
        return size.interior_cell(p);
    }
    if !ieee::is_finite(x) || !ieee::is_finite(y) {
        return Footprint::Rejected;
    }
    size.at_border(border, p)
}

// Where the camera's steps carry the places of a profile, finite or not.
pub fn carried_through(view: View, places: [SourcePixel; 7]) -> [Option<SourcePixel>; 7]
    ensures { (i : ℕ) (p : SourcePixel) (q : Option SourcePixel) → i < 7 →
        slice_index_or result i q ≡ carried_through view (slice_index_or places i p) }
{
    match view {
        None => camera::unmoved(places),
        Some(camera) => camera.carried_profile(places),
    }
}

// Where a sample of the refinement falls that is taken at a place of the photograph, or at none: with
// the border rejected.
pub fn seen_footprint(width: u32, height: u32, at: Option<SourcePixel>) -> Footprint
    ensures { result ≡ point_footprint width height at }
{
    let size = Size { width, height };
    match at {
        Some(q) => size.rejecting_footprint(q),
        None => Footprint::Rejected,
    }
}

// ---- the entry check by `Lens`

// Whether there is no camera, or one that is not refused by `Lens`.
pub fn good_view(view: View) -> bool
    ensures { result ≡ good_view view }
{
    match view {
        None => true,
        Some(camera) => camera.valid(),
    }
}
