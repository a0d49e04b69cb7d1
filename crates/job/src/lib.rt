// What a job card asks for: the fields of the card as a request, with its modules and the stride of its photograph.
#![tactic(auto)]

ghost use Rattle.std.specs.Prelude.{◌≡◌, ◌<◌, drop};
ghost use Rattle.request.specs.Requests.{lent};
ghost use Rattle.job.specs.Job.{
  working_at,
  intrinsics_at,
  lens_of,
  view_of,
  corners_of,
  request_from,
  request_of,
  stride_of,
  modules_of,
  photograph_of,
};

use camera::{CameraCalibration, CameraIntrinsics, LensDistortion};
use fields::{byte_at, float_at, number_at};
use footprint::View;
use job_card::{has_exactly, part};
use photograph::Photograph;
use pixel::WorkingPixel;
use request::Request;

// What is behind the first byte of a slice; of an empty one nothing.
fn behind_first(s: &[u8]) -> &[u8]
    ensures { result.now ≡ drop 1 s.now }
{
    s.get(1..).unwrap_or(&[])
}

// The corner whose x and y stand from i on, a place far below where `i + 8` would wrap.
fn corner_at(s: &[u8], i: usize) -> WorkingPixel
    requires { i < 4096 }
    ensures { result ≡ working_at s.now i }
{
    WorkingPixel(float_at(s, i), float_at(s, i + 8))
}

// The four corners of the contents of field 5.
fn corners_of(s: &[u8]) -> [WorkingPixel; 4]
    ensures { result ≡ corners_of s.now }
{
    [
        corner_at(s, 0),
        corner_at(s, 16),
        corner_at(s, 32),
        corner_at(s, 48),
    ]
}

// The intrinsics whose four floats stand from i on. Read as in `c_views`, whose floats are one index apart.
fn intrinsics_at(s: &[u8], i: usize) -> CameraIntrinsics
    requires { i < 4096 }
    ensures { result ≡ intrinsics_at s.now i }
{
    CameraIntrinsics {
        fx: float_at(s, i),
        fy: float_at(s, i + 8),
        cx: float_at(s, i + 16),
        cy: float_at(s, i + 24),
    }
}

// The lens of the contents of field 8, by its first byte.
fn lens_of(s: &[u8]) -> LensDistortion
    ensures { result ≡ lens_of s.now }
{
    match byte_at(s, 0) {
        1 => LensDistortion::BrownConrady {
            k1: float_at(s, 1),
            k2: float_at(s, 9),
            p1: float_at(s, 17),
            p2: float_at(s, 25),
            k3: float_at(s, 33),
        },
        2 => LensDistortion::Fisheye {
            k1: float_at(s, 1),
            k2: float_at(s, 9),
            k3: float_at(s, 17),
            k4: float_at(s, 25),
        },
        _ => LensDistortion::None,
    }
}

// How a card sees its photograph: through a camera where it has eight fields, else plainly.
fn view_of(card: &[u8]) -> View
    ensures { result ≡ view_of card.now }
{
    if has_exactly(card, 8) {
        let pair = part(card, 7);
        Some(CameraCalibration {
            intrinsics: intrinsics_at(pair, 0),
            rectified: intrinsics_at(pair, 32),
            distortion: lens_of(part(card, 8)),
        })
    } else {
        None
    }
}

// The request of the contents of the fields 1 and 3 to 6, with a view.
fn request_from(
    size: &[u8],
    grid: &[u8],
    scale: &[u8],
    corners: &[u8],
    polarity: &[u8],
    view: View,
) -> Request
    ensures { result ≡ request_from size.now grid.now scale.now
        corners.now polarity.now view }
{
    Request {
        width: number_at(size, 0, 2) as u32,
        height: number_at(size, 2, 2) as u32,
        dim: byte_at(grid, 0) as u32,
        sx: float_at(scale, 0),
        sy: float_at(scale, 8),
        corners: corners_of(corners),
        inverted: byte_at(polarity, 0) == 1,
        view,
        settings: consts::defaults(),
    }
}

// The request of a well formed card: all that it asks for but the photograph and the modules, which are lent as they lie in the card.
pub fn request_of(card: &[u8]) -> Request
    ensures { result ≡ request_of card.now }
{
    request_from(
        part(card, 1),
        part(card, 3),
        part(card, 4),
        part(card, 5),
        part(card, 6),
        view_of(card),
    )
}

// The stride of the photograph of a well formed card.
pub fn stride_of(card: &[u8]) -> u32
    ensures { result ≡ stride_of card.now }
{
    number_at(part(card, 1), 4, 2) as u32
}

// The photograph of a well formed card.
pub fn photograph_of(card: &[u8]) -> Photograph<'_>
    ensures { lent result ≡ photograph_of card.now }
{
    Photograph {
        bytes: part(card, 2),
        stride: stride_of(card),
    }
}

// The modules of a well formed card, one byte each.
pub fn modules_of(card: &[u8]) -> &[u8]
    ensures { result.now ≡ modules_of card.now }
{
    behind_first(part(card, 3))
}
