// The calls for C and Rust that look for an edge point, each over the lists and buffers that it is lent: `export` hands every
// one on as it is. The C interface names them and their parameters.
#![tactic(auto)]

ghost use Rattle.std.specs.Prelude.{◌≡◌, None};
ghost use Rattle.std.specs.Result.{result_unwrap_or};
ghost use Rattle.number.specs.Numbers.{number_of};
ghost use Rattle.edge_point.specs.EdgePoint.{localize_edge_point};
ghost use Rattle.consts.specs.Consts.{defaults};
ghost use Rattle.c_settings.specs.Lent.{settings_of};
ghost use Rattle.c_views.specs.Views.{any_view_of, view_of};
ghost use Rattle.c_buffers.specs.Buffers.{with_point, zero_point};
ghost use Rattle.c_edge_points.specs.EdgePoints.{lent_scene, lent_ray};

use footprint::Scene;
use number::Refusal;
use photograph::Photograph;
use pixel::{Direction, EdgePoint, SourcePixel};
use profile::Ray;

// Where an edge point is looked for.
fn lent_ray(
    coarse_x: f64,
    coarse_y: f64,
    normal_x: f64,
    normal_y: f64,
    step: f64,
    inverted: bool,
    inward_differs: bool,
) -> Ray
    ensures { result ≡ lent_ray coarse_x coarse_y normal_x normal_y step inverted inward_differs }
{
    Ray {
        coarse: SourcePixel(coarse_x, coarse_y),
        normal: Direction {
            x: normal_x,
            y: normal_y,
        },
        step,
        inverted,
        inward_differs,
    }
}

// Writes the point that was found, or zeros for a refusal, and gives its number.
fn write(found: Result<EdgePoint, Refusal>, point: &mut [f64]) -> u32
    ensures value { result ≡ number_of found }
    ensures point_after { point.new ≡ with_point (result_unwrap_or found zero_point) point.old }
{
    c_buffers::put_point(point, found.unwrap_or(c_buffers::ZERO_POINT));
    number::number_of(&found)
}

// ---- refine.rs, `localize_edge_point`

// An edge point along a normal on the photograph as it is, or 1, 2 or 19.
pub fn localize_edge_point(
    bytes: &[u8],
    width: u32,
    height: u32,
    stride: u32,
    coarse_x: f64,
    coarse_y: f64,
    normal_x: f64,
    normal_y: f64,
    step: f64,
    inverted: bool,
    inward_differs: bool,
    point: &mut [f64],
) -> u32
    ensures value { result ≡ number_of (localize_edge_point bytes.now stride (lent_scene width height None) defaults
        (lent_ray coarse_x coarse_y normal_x normal_y step inverted inward_differs)) }
    ensures point_after { point.new ≡ with_point (result_unwrap_or (localize_edge_point bytes.now stride
        (lent_scene width height None) defaults
        (lent_ray coarse_x coarse_y normal_x normal_y step inverted inward_differs)) zero_point) point.old }
{
    let photograph = Photograph { bytes, stride };
    let scene = Scene {
        width,
        height,
        view: None,
    };
    let ray = lent_ray(
        coarse_x,
        coarse_y,
        normal_x,
        normal_y,
        step,
        inverted,
        inward_differs,
    );
    let located = edge_point::localize_edge_point(photograph, scene, consts::defaults(), ray);
    write(located, point)
}

// An edge point along a normal through a camera, or 1, 2, 6 or 19.
pub fn localize_edge_point_mapped(
    bytes: &[u8],
    width: u32,
    height: u32,
    stride: u32,
    coarse_x: f64,
    coarse_y: f64,
    normal_x: f64,
    normal_y: f64,
    step: f64,
    inverted: bool,
    inward_differs: bool,
    camera: &[f64],
    lens: u32,
    point: &mut [f64],
) -> u32
    ensures value { result ≡ number_of (localize_edge_point bytes.now stride (lent_scene width height (view_of camera.now lens)) defaults
        (lent_ray coarse_x coarse_y normal_x normal_y step inverted inward_differs)) }
    ensures point_after { point.new ≡ with_point (result_unwrap_or (localize_edge_point bytes.now stride
        (lent_scene width height (view_of camera.now lens)) defaults
        (lent_ray coarse_x coarse_y normal_x normal_y step inverted inward_differs)) zero_point) point.old }
{
    let photograph = Photograph { bytes, stride };
    let view = c_views::view_of(camera, lens);
    let scene = Scene {
        width,
        height,
        view,
    };
    let ray = lent_ray(
        coarse_x,
        coarse_y,
        normal_x,
        normal_y,
        step,
        inverted,
        inward_differs,
    );
    let seen = edge_point::localize_edge_point(photograph, scene, consts::defaults(), ray);
    write(seen, point)
}

// An edge point along a normal under settings, through a camera or without one where its list is empty, or 1, 2, 6, 25
// or 19.
pub fn localize_edge_point_with(
    bytes: &[u8],
    width: u32,
    height: u32,
    stride: u32,
    coarse_x: f64,
    coarse_y: f64,
    normal_x: f64,
    normal_y: f64,
    step: f64,
    inverted: bool,
    inward_differs: bool,
    camera: &[f64],
    lens: u32,
    settings: &[f64],
    point: &mut [f64],
) -> u32
    ensures value { result ≡ number_of (localize_edge_point bytes.now stride
        (lent_scene width height (any_view_of camera.now lens)) (settings_of settings.now)
        (lent_ray coarse_x coarse_y normal_x normal_y step inverted inward_differs)) }
    ensures point_after { point.new ≡ with_point (result_unwrap_or (localize_edge_point bytes.now stride
        (lent_scene width height (any_view_of camera.now lens)) (settings_of settings.now)
        (lent_ray coarse_x coarse_y normal_x normal_y step inverted inward_differs)) zero_point) point.old }
{
    let photograph = Photograph { bytes, stride };
    let view = c_views::any_view_of(camera, lens);
    let scene = Scene {
        width,
        height,
        view,
    };
    let settings = c_settings::settings_of(settings);
    let ray = lent_ray(
        coarse_x,
        coarse_y,
        normal_x,
        normal_y,
        step,
        inverted,
        inward_differs,
    );
    let found = edge_point::localize_edge_point(photograph, scene, settings, ray);
    write(found, point)
}
