// The camera, the view and the border that the calls for C and Rust are lent. bindings/trufolmesca.h says what each holds.
#![tactic(auto)]

ghost use Rattle.std.specs.Prelude.{◌≡◌, ◌≤◌};
ghost use Rattle.c_views.specs.Views.{intrinsics_at, unknown_lens, lens_of, camera_of, view_of, any_view_of, border_of};

use c_lists::float_at;
use camera::{CameraCalibration, CameraIntrinsics, LensDistortion};
use footprint::{BorderMode, View};

// The fx, fy, cx and cy that stand from index i on in a camera's list: the photograph's from 0, the
// rectified picture's from 4. Intrinsics and lens are read as in `job`, whose floats are eight bytes each: all that
// both would share is the names of the fields.
fn intrinsics_at(s: &[f64], i: usize) -> CameraIntrinsics
    requires { i ≤ 4 }
    ensures { result ≡ intrinsics_at s.now i }
{
    CameraIntrinsics {
        fx: float_at(s, i),
        fy: float_at(s, i + 1),
        cx: float_at(s, i + 2),
        cy: float_at(s, i + 3),
    }
}

// A lens whose coefficients are no numbers, so that a camera with it is refused by 6.
#[tactic(auto, using(crate::proofs::UnknownKind::no_number))]
fn unknown_lens() -> LensDistortion
    ensures { result ≡ unknown_lens }
{
    LensDistortion::Fisheye {
        k1: f64::NAN,
        k2: f64::NAN,
        k3: f64::NAN,
        k4: f64::NAN,
    }
}

// The lens of a kind, whose coefficients stand behind the intrinsics in a camera's list: 0 none, 1
// Brown-Conrady, 2 fisheye, any other one that is refused.
fn lens_of(s: &[f64], lens: u32) -> LensDistortion
    ensures { result ≡ lens_of s.now lens }
{
    match lens {
        0 => LensDistortion::None,
        1 => LensDistortion::BrownConrady {
            k1: float_at(s, 8),
            k2: float_at(s, 9),
            p1: float_at(s, 10),
            p2: float_at(s, 11),
            k3: float_at(s, 12),
        },
        2 => LensDistortion::Fisheye {
            k1: float_at(s, 8),
            k2: float_at(s, 9),
            k3: float_at(s, 10),
            k4: float_at(s, 11),
        },
        _ => unknown_lens(),
    }
}

// A camera, from its list and the kind of its lens, as the C interface lends them.
pub fn camera_of(s: &[f64], lens: u32) -> CameraCalibration
    ensures { result ≡ camera_of s.now lens }
{
    CameraCalibration {
        intrinsics: intrinsics_at(s, 0),
        rectified: intrinsics_at(s, 4),
        distortion: lens_of(s, lens),
    }
}

// The photograph seen through the camera of a list, or as it is where the list is empty.
pub fn any_view_of(s: &[f64], lens: u32) -> View
    ensures { result ≡ any_view_of s.now lens }
{
    if s.is_empty() { None } else { view_of(s, lens) }
}

// The photograph seen through the camera of a list.
pub fn view_of(s: &[f64], lens: u32) -> View
    ensures { result ≡ view_of s.now lens }
{
    Some(camera_of(s, lens))
}

// The border mode of a code, which C passes and which is read here alone: 0 rejects, 1 clamps, any other answers with
// the constant.
pub fn border_of(mode: u32, constant: u8) -> BorderMode
    ensures { result ≡ border_of mode constant }
{
    match mode {
        0 => BorderMode::Reject,
        1 => BorderMode::Clamp,
        _ => BorderMode::Constant(constant),
    }
}
