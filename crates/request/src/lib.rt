// refine.rs, what `refine_corners` and `refine_corners_mapped` are asked: the request, the division of its corners, and
// the entry checks, by `Size` to `Lens` and by `Settings`.
#![tactic(auto)]

ghost use Rattle.std.specs.Prelude.{◌≡◌, ◌*◌, ◌&&◌};
ghost use Rattle.request.specs.Requests.{
  all_within_bounds,
  entry,
  good_scale,
  lent,
  plain,
  scene_of,
  source_corners,
  within_bounds,
};

use consts::Settings;
use footprint::{Scene, View};
use number::Refusal;
use photograph::Photograph;
use pixel::{SourcePixel, WorkingPixel};

// All of a refinement but the pixels and the modules: the photograph's size, the label's side in modules, how many
// working pixels there are for a source pixel or with a camera for a rectified one, its corners in working pixels, its
// polarity, the camera, and the settings.
#[derive(Clone, Copy)]
pub struct Request {
    pub width: u32,
    pub height: u32,
    pub dim: u32,
    pub sx: f64,
    pub sy: f64,
    pub corners: [WorkingPixel; 4],
    pub inverted: bool,
    pub view: View,
    pub settings: Settings,
}

impl Request {
    // Without a camera.
    pub fn plain(self) -> Request
        ensures { result ≡ plain self }
    {
        Request { view: None, ..self }
    }

    // What all samples of its run share.
    pub fn scene(self) -> Scene
        ensures { result ≡ scene_of self }
    {
        Scene {
            width: self.width,
            height: self.height,
            view: self.view,
        }
    }
}

// How far from the origin a source corner may lie: 64 times the widest photograph.
const MAX_COORDINATE: f64 = 1048576.0;

// The corners after the division.
pub fn source_corners(request: Request) -> [SourcePixel; 4]
    ensures { result ≡ source_corners request }
{
    request
        .corners
        .map(|corner| corner.to_source(request.sx, request.sy))
}

// Whether a scale is finite and above 0.
fn good_scale(s: f64) -> bool
    ensures { result ≡ good_scale s }
{
    ieee::is_finite(s) && s > 0.0
}

// Whether a coordinate is finite and not too far out.
fn within_bounds(x: f64) -> bool
    ensures { result ≡ within_bounds x }
{
    ieee::is_finite(x) && !(ieee::abs(x) > MAX_COORDINATE)
}

// Whether all four corners are finite and not too far out.
fn all_within_bounds(corners: [SourcePixel; 4]) -> bool
    ensures { result ≡ all_within_bounds corners }
{
    corners.iter().all(|corner| within_bounds(corner.0) && within_bounds(corner.1))
}

// The entry checks: the first that fails refuses.
pub fn entry(photograph: Photograph, modules: &[u8], request: Request) -> Result<(), Refusal>
    ensures { result ≡ entry request modules.now (lent photograph.entry) }
{
    photograph.check(request.width, request.height)?;
    if !grid::good_grid(modules, request.dim) {
        return Err(Refusal::Grid);
    }
    if !(good_scale(request.sx) && good_scale(request.sy)) {
        return Err(Refusal::Scale);
    }
    if !all_within_bounds(source_corners(request)) {
        return Err(Refusal::Corner);
    }
    if !footprint::good_view(request.view) {
        return Err(Refusal::Lens);
    }
    if !consts::good_settings(request.settings) {
        return Err(Refusal::Settings);
    }
    Ok(())
}

// How many bytes or modules lie in so many rows. Width and height go side by side, as `photograph` says.
pub fn area(width: u32, height: u32) -> usize
    ensures { result ≡ width * height }
{
    width as usize * height as usize
}
