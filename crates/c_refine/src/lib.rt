// The refinement calls for C and Rust, each over the lists and buffers that it is lent: `export` hands every one on as it is.
// The parameters are those of the C interface.
#![tactic(auto)]

ghost use Rattle.std.specs.Prelude.{None};
ghost use Rattle.consts.specs.Consts.{defaults};
ghost use Rattle.request.specs.Requests.{photograph};
ghost use Rattle.refine.specs.Refine.{refine};
ghost use Rattle.c_settings.specs.Lent.{settings_of};
ghost use Rattle.c_views.specs.Views.{any_view_of, view_of};
ghost use Rattle.c_answers.specs.Answers.{Written};
ghost use Rattle.c_requests.specs.Requests.{lent_request};

use photograph::Photograph;

// A label's corners on a photograph as it is: `refine::refine_corners` over lists.
pub fn refine_corners(
    bytes: &[u8],
    width: u32,
    height: u32,
    stride: u32,
    modules: &[u8],
    dim: u32,
    sx: f64,
    sy: f64,
    corners: &[f64],
    inverted: bool,
    places: &mut [f64],
    counts: &mut [u32],
) -> u32
    ensures { Written (refine (lent_request width height dim sx sy corners.now inverted None defaults)
        modules.now (photograph bytes.now stride)) result
        places.old places.new counts.old counts.new }
{
    let settings = consts::defaults();
    let request = c_requests::request_of(
        width, height, dim, sx, sy, corners, inverted, None, settings,
    );
    let answer = refine::refine_corners(Photograph { bytes, stride }, modules, request);
    c_answers::put_answer(answer, places, counts)
}

// A label's corners through a camera: `refine::refine_corners_mapped` over lists.
pub fn refine_corners_mapped(
    bytes: &[u8],
    width: u32,
    height: u32,
    stride: u32,
    modules: &[u8],
    dim: u32,
    sx: f64,
    sy: f64,
    corners: &[f64],
    inverted: bool,
    camera: &[f64],
    lens: u32,
    places: &mut [f64],
    counts: &mut [u32],
) -> u32
    ensures { Written (refine (lent_request width height dim sx sy corners.now inverted (view_of camera.now lens) defaults)
        modules.now (photograph bytes.now stride)) result
        places.old places.new counts.old counts.new }
{
    let view = c_views::view_of(camera, lens);
    let settings = consts::defaults();
    let request = c_requests::request_of(
        width, height, dim, sx, sy, corners, inverted, view, settings,
    );
    let answer = refine::refine_corners_mapped(Photograph { bytes, stride }, modules, request);
    c_answers::put_answer(answer, places, counts)
}

// A label's corners under settings, through a camera or without one where its list is empty: `refine::refine_corners_mapped`
// over lists.
pub fn refine_corners_with(
    bytes: &[u8],
    width: u32,
    height: u32,
    stride: u32,
    modules: &[u8],
    dim: u32,
    sx: f64,
    sy: f64,
    corners: &[f64],
    inverted: bool,
    camera: &[f64],
    lens: u32,
    settings: &[f64],
    places: &mut [f64],
    counts: &mut [u32],
) -> u32
    ensures { Written (refine (lent_request width height dim sx sy corners.now inverted
        (any_view_of camera.now lens) (settings_of settings.now))
        modules.now (photograph bytes.now stride)) result
        places.old places.new counts.old counts.new }
{
    let view = c_views::any_view_of(camera, lens);
    let settings = c_settings::settings_of(settings);
    let request = c_requests::request_of(
        width, height, dim, sx, sy, corners, inverted, view, settings,
    );
    let refined = refine::refine_corners_mapped(Photograph { bytes, stride }, modules, request);
    c_answers::put_answer(refined, places, counts)
}
