// camera.rs: the fisheye lens.

ghost use Rattle.std.specs.Prelude.{◌≡◌, ◌<◌, ℕ, Float, slice_index_or};
ghost use Rattle.arctan.specs.Arctan.{arctangent};
ghost use Rattle.camera.specs.declared.Normalized.{Normalized};
ghost use Rattle.camera.specs.Camera.{fisheye};
ghost use Rattle.camera.specs.Together.{square, distance};

use crate::Normalized;

// The square of a place's distance from the axis.
#[inline(always)]
fn square(p: Normalized) -> f64
    ensures { result ≡ square p }
{
    p.0 * p.0 + p.1 * p.1
}

// Where a fisheye sends a place on the picture plane whose distance from the axis is r, and which
// lies at the angle theta to it: nowhere if the distance is not finite, or if the polynomial of the
// angle is not above 0.
#[inline(always)]
#[tactic(auto, unfolding(crate::specs::Camera::fisheye))]
pub(crate) fn bent_at(
    k1: f64,
    k2: f64,
    k3: f64,
    k4: f64,
    p: Normalized,
    r: f64,
    theta: f64,
) -> Option<Normalized>
    requires distance { r ≡ distance p }
    requires angle { theta ≡ arctangent r }
    ensures { result ≡ fisheye k1 k2 k3 k4 p.0 p.1 }
{
    if !ieee::is_finite(r) {
        return None;
    }
    if r == 0.0 {
        return Some(Normalized(0.0, 0.0));
    }
    let t2 = theta * theta;
    let td = theta * (1.0 + t2 * (k1 + t2 * (k2 + t2 * (k3 + t2 * k4))));
    if td <= 0.0 {
        return None;
    }
    let scale = td / r;
    Some(Normalized(p.0 * scale, p.1 * scale))
}

// Where a fisheye sends a place on the picture plane, if anywhere. It stays a call, so that whoever
// samples through another lens is no slower.
#[inline(never)]
pub(crate) fn bent(k1: f64, k2: f64, k3: f64, k4: f64, p: Normalized) -> Option<Normalized>
    ensures { result ≡ fisheye k1 k2 k3 k4 p.0 p.1 }
{
    let r = ieee_root::sqrt(square(p));
    bent_at(k1, k2, k3, k4, p, r, arctan::arctan(r))
}

// The squares of the distances from the axis of places on the picture plane.
fn squares(places: [Normalized; 7]) -> [f64; 7]
    ensures { (i : ℕ) (p : Normalized) (d : Float) → i < 7 →
        slice_index_or result i d ≡ square (slice_index_or places i p) }
{
    let mut all = [0.0f64; 7];
    for k in 0..7usize {
        all[k] = square(places[k]);
    }
    all
}

// The distances from the axis of places on the picture plane.
pub(crate) fn distances(places: [Normalized; 7]) -> [f64; 7]
    ensures { (i : ℕ) (p : Normalized) (d : Float) → i < 7 →
        slice_index_or result i d ≡ distance (slice_index_or places i p) }
{
    ieee_root::roots(squares(places))
}

// The angles with the axis of places at these distances from it.
pub(crate) fn angles(distances: [f64; 7]) -> [f64; 7]
    ensures { (i : ℕ) (r : Float) (t : Float) → i < 7 →
        slice_index_or result i t ≡ arctangent (slice_index_or distances i r) }
{
    let mut all = [0.0f64; 7];
    for k in 0..7usize {
        all[k] = arctan::arctan(distances[k]);
    }
    all
}
