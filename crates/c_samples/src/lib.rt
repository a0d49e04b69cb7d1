// The calls for C and Rust that sample a photograph or go through a camera, each over the lists and buffers that it is lent:
// `export` hands every one on as it is. The parameters are those of the C interface.
#![tactic(auto)]

ghost use Rattle.std.specs.Prelude.{◌≡◌, set};
ghost use Rattle.std.specs.Result.{result_unwrap_or};
ghost use Rattle.number.specs.Numbers.{number_of};
ghost use Rattle.ieee.specs.Floats.{f0};
ghost use Rattle.pixel.specs.Pixels.{source};
ghost use Rattle.sampling.specs.Sampling.{sample_bilinear};
ghost use Rattle.camera.specs.Camera.{camera_answer};
ghost use Rattle.c_views.specs.Views.{camera_of, border_of};
ghost use Rattle.c_buffers.specs.Buffers.{with_place, zero_place};

use photograph::Photograph;
use pixel::SourcePixel;

// ---- sampling.rs

// The sample at x, y under the border mode of a code, or 1, 2 or 17.
pub fn sample_bilinear(
    bytes: &[u8],
    width: u32,
    height: u32,
    stride: u32,
    x: f64,
    y: f64,
    border: u32,
    constant: u8,
    value: &mut [f64],
) -> u32
    ensures value { result ≡ number_of (sample_bilinear bytes.now width height stride x y (border_of border constant)) }
    ensures value_after { value.new ≡ set value.old 0
        (result_unwrap_or (sample_bilinear bytes.now width height stride x y (border_of border constant)) f0) }
{
    let photograph = Photograph { bytes, stride };
    let mode = c_views::border_of(border, constant);
    let sample = sampling::sample_bilinear(photograph, width, height, x, y, mode);
    c_buffers::put(value, 0, sample.unwrap_or(0.0));
    number::number_of(&sample)
}

// ---- camera.rs

// Where a rectified place lies in the photograph, or 6 or 20.
pub fn rectified_to_source(camera: &[f64], lens: u32, x: f64, y: f64, place: &mut [f64]) -> u32
    ensures value { result ≡ number_of (camera_answer (camera_of camera.now lens) (source x y)) }
    ensures place_after { place.new ≡ with_place
        (result_unwrap_or (camera_answer (camera_of camera.now lens) (source x y)) zero_place) place.old }
{
    let c = c_views::camera_of(camera, lens);
    let placed = c.rectified_to_source(SourcePixel(x, y));
    c_buffers::put_place(place, placed.unwrap_or(c_buffers::ZERO_PLACE));
    number::number_of(&placed)
}
