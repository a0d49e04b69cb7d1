// The refinement calls: each hands on what the one of its name in `c_refine` or `c_marking` gives.
// The parameters are those of the C interface.
ghost use Rattle.std.specs.Prelude.{None};
ghost use Rattle.consts.specs.Consts.{defaults};
ghost use Rattle.request.specs.Requests.{photograph};
ghost use Rattle.refine.specs.Refine.{refine};
ghost use Rattle.c_settings.specs.Lent.{settings_of};
ghost use Rattle.c_views.specs.Views.{any_view_of, view_of};
ghost use Rattle.c_answers.specs.Answers.{Written};
ghost use Rattle.c_requests.specs.Requests.{lent_request};
ghost use Rattle.c_marking.specs.Calls.{WrittenMarked};

// ---- on a photograph as it is

// A label's corners on a photograph as it is: `c_refine::refine_corners` under its name for C.
#[unsafe(no_mangle)]
pub extern "C" fn trufolmesca_refine_corners(
    bytes: &[u8],
    width: u32,
    height: u32,
    stride: u32,
    modules: &[u8],
    dim: u32,
    sx: f64,
    sy: f64,
    corners: &[f64],
    inverted: bool,
    places: &mut [f64],
    counts: &mut [u32],
) -> u32
    ensures { Written (refine (lent_request width height dim sx sy corners.now inverted None defaults)
        modules.now (photograph bytes.now stride)) result
        places.old places.new counts.old counts.new }
{
    c_refine::refine_corners(
        bytes, width, height, stride, modules, dim, sx, sy, corners, inverted, places, counts,
    )
}

// A label's corners on a photograph as it is, marked: `c_marking::refine_corners_marking` under its name for C.
#[unsafe(no_mangle)]
pub extern "C" fn trufolmesca_refine_corners_marking(
    bytes: &[u8],
    width: u32,
    height: u32,
    stride: u32,
    modules: &[u8],
    dim: u32,
    sx: f64,
    sy: f64,
    corners: &[f64],
    inverted: bool,
    places: &mut [f64],
    counts: &mut [u32],
    sheet: &mut [u8],
    copy: &mut [u8],
) -> u32
    ensures { WrittenMarked (lent_request width height dim sx sy corners.now inverted None defaults)
        modules.now (photograph bytes.now stride) result
        places.old places.new counts.old counts.new
        sheet.old sheet.new copy.old copy.new }
{
    c_marking::refine_corners_marking(
        bytes, width, height, stride, modules, dim, sx, sy, corners, inverted, places, counts,
        sheet, copy,
    )
}

// ---- through a camera

// A label's corners through a camera: `c_refine::refine_corners_mapped` under its name for C.
#[unsafe(no_mangle)]
pub extern "C" fn trufolmesca_refine_corners_mapped(
    bytes: &[u8],
    width: u32,
    height: u32,
    stride: u32,
    modules: &[u8],
    dim: u32,
    sx: f64,
    sy: f64,
    corners: &[f64],
    inverted: bool,
    camera: &[f64],
    lens: u32,
    places: &mut [f64],
    counts: &mut [u32],
) -> u32
    ensures { Written (refine (lent_request width height dim sx sy corners.now inverted (view_of camera.now lens) defaults)
        modules.now (photograph bytes.now stride)) result
        places.old places.new counts.old counts.new }
{
    c_refine::refine_corners_mapped(
        bytes, width, height, stride, modules, dim, sx, sy, corners, inverted, camera, lens,
        places, counts,
    )
}

// A label's corners through a camera, marked: `c_marking::refine_corners_mapped_marking` under its name for C.
#[unsafe(no_mangle)]
pub extern "C" fn trufolmesca_refine_corners_mapped_marking(
    bytes: &[u8],
    width: u32,
    height: u32,
    stride: u32,
    modules: &[u8],
    dim: u32,
    sx: f64,
    sy: f64,
    corners: &[f64],
    inverted: bool,
    camera: &[f64],
    lens: u32,
    places: &mut [f64],
    counts: &mut [u32],
    sheet: &mut [u8],
    copy: &mut [u8],
) -> u32
    ensures { WrittenMarked (lent_request width height dim sx sy corners.now inverted (view_of camera.now lens) defaults)
        modules.now (photograph bytes.now stride) result
        places.old places.new counts.old counts.new
        sheet.old sheet.new copy.old copy.new }
{
    c_marking::refine_corners_mapped_marking(
        bytes, width, height, stride, modules, dim, sx, sy, corners, inverted, camera, lens,
        places, counts, sheet, copy,
    )
}

// ---- under settings

// A label's corners under settings: `c_refine::refine_corners_with` under its name for C.
#[unsafe(no_mangle)]
pub extern "C" fn trufolmesca_refine_corners_with(
    bytes: &[u8],
    width: u32,
    height: u32,
    stride: u32,
    modules: &[u8],
    dim: u32,
    sx: f64,
    sy: f64,
    corners: &[f64],
    inverted: bool,
    camera: &[f64],
    lens: u32,
    settings: &[f64],
    places: &mut [f64],
    counts: &mut [u32],
) -> u32
    ensures { Written (refine (lent_request width height dim sx sy corners.now inverted
        (any_view_of camera.now lens) (settings_of settings.now))
        modules.now (photograph bytes.now stride)) result
        places.old places.new counts.old counts.new }
{
    c_refine::refine_corners_with(
        bytes, width, height, stride, modules, dim, sx, sy, corners, inverted, camera, lens,
        settings, places, counts,
    )
}

// A label's corners under settings, marked: `c_marking::refine_corners_marking_with` under its name for C.
#[unsafe(no_mangle)]
pub extern "C" fn trufolmesca_refine_corners_marking_with(
    bytes: &[u8],
    width: u32,
    height: u32,
    stride: u32,
    modules: &[u8],
    dim: u32,
    sx: f64,
    sy: f64,
    corners: &[f64],
    inverted: bool,
    camera: &[f64],
    lens: u32,
    settings: &[f64],
    places: &mut [f64],
    counts: &mut [u32],
    sheet: &mut [u8],
    copy: &mut [u8],
) -> u32
    ensures { WrittenMarked (lent_request width height dim sx sy corners.now inverted
        (any_view_of camera.now lens) (settings_of settings.now))
        modules.now (photograph bytes.now stride) result
        places.old places.new counts.old counts.new
        sheet.old sheet.new copy.old copy.new }
{
    c_marking::refine_corners_marking_with(
        bytes, width, height, stride, modules, dim, sx, sy, corners, inverted, camera, lens,
        settings, places, counts, sheet, copy,
    )
}

// ---- end
