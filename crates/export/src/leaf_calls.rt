// The leaf calls: each hands on what the one of its name in `c_maps`, `c_lines`, `c_samples`, `c_edge_points` or `smooth` gives.
// The parameters are those of the C interface.
ghost use Rattle.std.specs.Prelude.{◌≡◌, None, set};
ghost use Rattle.std.specs.Result.{result_unwrap_or};
ghost use Rattle.std.specs.Float.{binary64};
ghost use Rattle.number.specs.Numbers.{number_of};
ghost use Rattle.ieee.specs.Floats.{f0};
ghost use Rattle.ieee_root.specs.Root.{root};
ghost use Rattle.pixel.specs.Pixels.{source};
ghost use Rattle.sampling.specs.Sampling.{sample_bilinear};
ghost use Rattle.camera.specs.Camera.{camera_answer};
ghost use Rattle.homography.specs.Homography.{map_point, scaled, inverse, composed};
ghost use Rattle.quad.specs.Quad.{square_to_quad, quad_to_quad, map_answer};
ghost use Rattle.line.specs.Line.{crossing, cross_answer};
ghost use Rattle.line_fit.specs.LineFit.{fit_line};
ghost use Rattle.edge_point.specs.EdgePoint.{localize_edge_point};
ghost use Rattle.c_lists.specs.Lent.{quad_of, map_of, line_of};
ghost use Rattle.consts.specs.Consts.{defaults};
ghost use Rattle.c_settings.specs.Lent.{settings_of};
ghost use Rattle.c_views.specs.Views.{camera_of, view_of, any_view_of, border_of};
ghost use Rattle.c_buffers.specs.Buffers.{with_place, with_point, with_line, with_map, zero_place, zero_point, zero_line, zero_map};
ghost use Rattle.c_edge_points.specs.EdgePoints.{lent_scene, lent_ray};
ghost use Rattle.smooth.specs.Smooth.{to_answer, smoothed_to, over_answer, smoothed_over};

// ---- sampling.rs

// The sample of a photograph at x, y: `c_samples::sample_bilinear` under its name for C.
#[unsafe(no_mangle)]
pub extern "C" fn trufolmesca_sample_bilinear(
    bytes: &[u8],
    width: u32,
    height: u32,
    stride: u32,
    x: f64,
    y: f64,
    border: u32,
    constant: u8,
    value: &mut [f64],
) -> u32
    ensures value { result ≡ number_of (sample_bilinear bytes.now width height stride x y (border_of border constant)) }
    ensures value_after { value.new ≡ set value.old 0
        (result_unwrap_or (sample_bilinear bytes.now width height stride x y (border_of border constant)) f0) }
{
    c_samples::sample_bilinear(bytes, width, height, stride, x, y, border, constant, value)
}

// ---- camera.rs

// Where a rectified place lies in the photograph: `c_samples::rectified_to_source` under its name for C.
#[unsafe(no_mangle)]
pub extern "C" fn trufolmesca_rectified_to_source(
    camera: &[f64],
    lens: u32,
    x: f64,
    y: f64,
    place: &mut [f64],
) -> u32
    ensures value { result ≡ number_of (camera_answer (camera_of camera.now lens) (source x y)) }
    ensures place_after { place.new ≡ with_place
        (result_unwrap_or (camera_answer (camera_of camera.now lens) (source x y)) zero_place) place.old }
{
    c_samples::rectified_to_source(camera, lens, x, y, place)
}

// ---- homography.rs

// The map of the unit square onto four corners: `c_maps::square_to_quad` under its name for C.
#[unsafe(no_mangle)]
pub extern "C" fn trufolmesca_square_to_quad(corners: &[f64], map: &mut [f64]) -> u32
    ensures value { result ≡ number_of (map_answer (square_to_quad (quad_of corners.now))) }
    ensures map_after { map.new
        ≡ with_map (result_unwrap_or (map_answer (square_to_quad (quad_of corners.now))) zero_map) map.old }
{
    c_maps::square_to_quad(corners, map)
}

// The map of four corners onto four others: `c_maps::quad_to_quad` under its name for C.
#[unsafe(no_mangle)]
pub extern "C" fn trufolmesca_quad_to_quad(from: &[f64], to: &[f64], map: &mut [f64]) -> u32
    ensures value { result ≡ number_of (map_answer (quad_to_quad (quad_of from.now) (quad_of to.now))) }
    ensures map_after { map.new
        ≡ with_map (result_unwrap_or (map_answer (quad_to_quad (quad_of from.now) (quad_of to.now))) zero_map) map.old }
{
    c_maps::quad_to_quad(from, to, map)
}

// Where a map sends u, v: `c_maps::map` under its name for C.
#[unsafe(no_mangle)]
pub extern "C" fn trufolmesca_map(map: &[f64], u: f64, v: f64, place: &mut [f64])
    ensures { place.new ≡ with_place (map_point (map_of map.now) u v) place.old }
{
    c_maps::map(map, u, v, place);
}

// The map that scales: `c_maps::scaled` under its name for C.
#[unsafe(no_mangle)]
pub extern "C" fn trufolmesca_scaled(sx: f64, sy: f64, map: &mut [f64])
    ensures { map.new ≡ with_map (scaled sx sy) map.old }
{
    c_maps::scaled(sx, sy, map);
}

// The inverse of a map: `c_maps::inverse` under its name for C.
#[unsafe(no_mangle)]
pub extern "C" fn trufolmesca_inverse(map: &[f64], out: &mut [f64])
    ensures { out.new ≡ with_map (inverse (map_of map.now)) out.old }
{
    c_maps::inverse(map, out);
}

// The inner map first, and the outer one after it.
#[unsafe(no_mangle)]
pub extern "C" fn trufolmesca_then(inner: &[f64], outer: &[f64], out: &mut [f64])
    ensures { out.new ≡ with_map (composed (map_of inner.now) (map_of outer.now)) out.old }
{
    c_maps::then(inner, outer, out);
}

// ---- line.rs

// The line through weighted points: `c_lines::fit_line_tls_weighted` under its name for C.
#[unsafe(no_mangle)]
pub extern "C" fn trufolmesca_fit_line_tls_weighted(
    xs: &[f64],
    ys: &[f64],
    weights: &[f64],
    line: &mut [f64],
) -> u32
    ensures value { result ≡ number_of (fit_line xs.now ys.now weights.now) }
    ensures line_after { line.new
        ≡ with_line (result_unwrap_or (fit_line xs.now ys.now weights.now) zero_line) line.old }
{
    c_lines::fit_line_tls_weighted(xs, ys, weights, line)
}

// Where two lines cross: `c_lines::intersect_lines` under its name for C.
#[unsafe(no_mangle)]
pub extern "C" fn trufolmesca_intersect_lines(a: &[f64], b: &[f64], place: &mut [f64]) -> u32
    ensures value { result ≡ number_of (cross_answer (crossing (line_of a.now) (line_of b.now))) }
    ensures place_after { place.new
        ≡ with_place (result_unwrap_or (cross_answer (crossing (line_of a.now) (line_of b.now))) zero_place) place.old }
{
    c_lines::intersect_lines(a, b, place)
}

// ---- refine.rs, `localize_edge_point`

// An edge point on a photograph as it is: `c_edge_points::localize_edge_point` under its name for C.
#[unsafe(no_mangle)]
pub extern "C" fn trufolmesca_localize_edge_point(
    bytes: &[u8],
    width: u32,
    height: u32,
    stride: u32,
    coarse_x: f64,
    coarse_y: f64,
    normal_x: f64,
    normal_y: f64,
    step: f64,
    inverted: bool,
    inward_differs: bool,
    point: &mut [f64],
) -> u32
    ensures value { result ≡ number_of (localize_edge_point bytes.now stride (lent_scene width height None) defaults
        (lent_ray coarse_x coarse_y normal_x normal_y step inverted inward_differs)) }
    ensures point_after { point.new ≡ with_point (result_unwrap_or (localize_edge_point bytes.now stride
        (lent_scene width height None) defaults
        (lent_ray coarse_x coarse_y normal_x normal_y step inverted inward_differs)) zero_point) point.old }
{
    c_edge_points::localize_edge_point(
        bytes,
        width,
        height,
        stride,
        coarse_x,
        coarse_y,
        normal_x,
        normal_y,
        step,
        inverted,
        inward_differs,
        point,
    )
}

// An edge point through a camera: `c_edge_points::localize_edge_point_mapped` under its name for C.
#[unsafe(no_mangle)]
pub extern "C" fn trufolmesca_localize_edge_point_mapped(
    bytes: &[u8],
    width: u32,
    height: u32,
    stride: u32,
    coarse_x: f64,
    coarse_y: f64,
    normal_x: f64,
    normal_y: f64,
    step: f64,
    inverted: bool,
    inward_differs: bool,
    camera: &[f64],
    lens: u32,
    point: &mut [f64],
) -> u32
    ensures value { result ≡ number_of (localize_edge_point bytes.now stride (lent_scene width height (view_of camera.now lens)) defaults
        (lent_ray coarse_x coarse_y normal_x normal_y step inverted inward_differs)) }
    ensures point_after { point.new ≡ with_point (result_unwrap_or (localize_edge_point bytes.now stride
        (lent_scene width height (view_of camera.now lens)) defaults
        (lent_ray coarse_x coarse_y normal_x normal_y step inverted inward_differs)) zero_point) point.old }
{
    c_edge_points::localize_edge_point_mapped(
        bytes,
        width,
        height,
        stride,
        coarse_x,
        coarse_y,
        normal_x,
        normal_y,
        step,
        inverted,
        inward_differs,
        camera,
        lens,
        point,
    )
}

// An edge point under settings: `c_edge_points::localize_edge_point_with` under its name for C.
#[unsafe(no_mangle)]
pub extern "C" fn trufolmesca_localize_edge_point_with(
    bytes: &[u8],
    width: u32,
    height: u32,
    stride: u32,
    coarse_x: f64,
    coarse_y: f64,
    normal_x: f64,
    normal_y: f64,
    step: f64,
    inverted: bool,
    inward_differs: bool,
    camera: &[f64],
    lens: u32,
    settings: &[f64],
    point: &mut [f64],
) -> u32
    ensures value { result ≡ number_of (localize_edge_point bytes.now stride
        (lent_scene width height (any_view_of camera.now lens)) (settings_of settings.now)
        (lent_ray coarse_x coarse_y normal_x normal_y step inverted inward_differs)) }
    ensures point_after { point.new ≡ with_point (result_unwrap_or (localize_edge_point bytes.now stride
        (lent_scene width height (any_view_of camera.now lens)) (settings_of settings.now)
        (lent_ray coarse_x coarse_y normal_x normal_y step inverted inward_differs)) zero_point) point.old }
{
    c_edge_points::localize_edge_point_with(
        bytes,
        width,
        height,
        stride,
        coarse_x,
        coarse_y,
        normal_x,
        normal_y,
        step,
        inverted,
        inward_differs,
        camera,
        lens,
        settings,
        point,
    )
}

// ---- smoothing

// A scan smoothed to a second buffer: `smooth::smooth_to` under its name for C.
#[unsafe(no_mangle)]
pub extern "C" fn trufolmesca_smooth_to(scan: &[u16], window: u32, out: &mut [u16]) -> u32
    ensures value { result ≡ number_of (to_answer window scan.now out.old) }
    ensures out_after { out.new ≡ smoothed_to window scan.now out.old }
{
    number::number_of(&smooth::smooth_to(scan, window, out))
}

// A scan smoothed over itself: `smooth::smooth_over` under its name for C.
#[unsafe(no_mangle)]
pub extern "C" fn trufolmesca_smooth_over(scan: &mut [u16], window: u32) -> u32
    ensures value { result ≡ number_of (over_answer window) }
    ensures scan_after { scan.new ≡ smoothed_over window scan.old }
{
    number::number_of(&smooth::smooth_over(scan, window))
}

// ---- the root

// The square root of x, correctly rounded.
#[unsafe(no_mangle)]
pub extern "C" fn trufolmesca_sqrt(x: f64) -> f64
    ensures { result ≡ root binary64 x }
{
    ieee_root::sqrt(x)
}

// ---- end
