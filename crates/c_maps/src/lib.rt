// The calls for C and Rust about maps, each over the lists and buffers that it is lent: `export` hands every one on as it is.
// The parameters are those of the C interface.
#![tactic(auto)]

ghost use Rattle.std.specs.Prelude.{◌≡◌};
ghost use Rattle.std.specs.Result.{result_unwrap_or};
ghost use Rattle.number.specs.Numbers.{number_of};
ghost use Rattle.homography.specs.Homography.{map_point, scaled as scaled_by, inverse as inverse_of, composed};
ghost use Rattle.quad.specs.Quad.{square_to_quad, quad_to_quad, map_answer};
ghost use Rattle.c_lists.specs.Lent.{quad_of, map_of};
ghost use Rattle.c_buffers.specs.Buffers.{with_place, with_map, zero_map};

use homography::PerspectiveTransform;

// The map of the unit square to a quad, or 8 where it has none.
pub fn square_to_quad(corners: &[f64], map: &mut [f64]) -> u32
    ensures value { result ≡ number_of (map_answer (square_to_quad (quad_of corners.now))) }
    ensures map_after { map.new
        ≡ with_map (result_unwrap_or (map_answer (square_to_quad (quad_of corners.now))) zero_map) map.old }
{
    let q = c_lists::quad_of(corners);
    let square = quad::square_to_quad(q);
    c_buffers::put_map(map, square.unwrap_or(c_buffers::ZERO_MAP));
    number::number_of(&square)
}

// The map of one quad to another, or 8 where one has none. Of the shape that `c_lines::intersect_lines` speaks of.
pub fn quad_to_quad(from: &[f64], to: &[f64], map: &mut [f64]) -> u32
    ensures value { result ≡ number_of (map_answer (quad_to_quad (quad_of from.now) (quad_of to.now))) }
    ensures map_after { map.new
        ≡ with_map (result_unwrap_or (map_answer (quad_to_quad (quad_of from.now) (quad_of to.now))) zero_map) map.old }
{
    let f = c_lists::quad_of(from);
    let t = c_lists::quad_of(to);
    let quads = quad::quad_to_quad(f, t);
    c_buffers::put_map(map, quads.unwrap_or(c_buffers::ZERO_MAP));
    number::number_of(&quads)
}

// Where a map sends u, v.
pub fn map(map: &[f64], u: f64, v: f64, place: &mut [f64])
    ensures { place.new ≡ with_place (map_point (map_of map.now) u v) place.old }
{
    let m = c_lists::map_of(map);
    c_buffers::put_place(place, m.map(u, v));
}

// The map that scales by sx and sy.
pub fn scaled(sx: f64, sy: f64, map: &mut [f64])
    ensures { map.new ≡ with_map (scaled_by sx sy) map.old }
{
    c_buffers::put_map(map, PerspectiveTransform::scaled(sx, sy));
}

// A map's inverse, up to a scale.
pub fn inverse(map: &[f64], out: &mut [f64])
    ensures { out.new ≡ with_map (inverse_of (map_of map.now)) out.old }
{
    let forward = c_lists::map_of(map);
    c_buffers::put_map(out, forward.inverse());
}

// The map that sends a point through the inner map first, and through the outer one after it.
pub fn then(inner: &[f64], outer: &[f64], out: &mut [f64])
    ensures { out.new ≡ with_map (composed (map_of inner.now) (map_of outer.now)) out.old }
{
    let i = c_lists::map_of(inner);
    let o = c_lists::map_of(outer);
    c_buffers::put_map(out, i.then(o));
}
