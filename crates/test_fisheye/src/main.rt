// Prints where fisheye lenses send rectified places: a line for each, with the number and the bit
// patterns of x and y. The places are a grid of 17 by 17, whose middle lies on the axis, and one so
// far away that the square of its distance is infinite.
#![tactic(auto)]

use camera::{CameraCalibration, CameraIntrinsics, LensDistortion};
use pixel::SourcePixel;

// A camera with a fisheye lens.
fn camera_with(k1: f64, k2: f64, k3: f64, k4: f64) -> CameraCalibration {
    CameraCalibration {
        intrinsics: CameraIntrinsics {
            fx: 310.5,
            fy: 309.25,
            cx: 321.75,
            cy: 238.5,
        },
        rectified: CameraIntrinsics {
            fx: 120.0,
            fy: 125.0,
            cx: 320.0,
            cy: 240.0,
        },
        distortion: LensDistortion::Fisheye { k1, k2, k3, k4 },
    }
}

// A value's bit pattern, printed behind a space.
fn print_bits(x: f64) {
    io::write_all(1, b" ");
    io::print_hex(1, ieee::bits_of(x), 16);
}

// The line of a place. Where it has none the refusal's number stands before two zeros.
fn print_place(camera: CameraCalibration, x: f64, y: f64) {
    let place = camera.rectified_to_source(SourcePixel(x, y));
    io::print_decimal(1, u64::from(number::number_of(&place)));
    let place = place.unwrap_or(SourcePixel(0.0, 0.0));
    print_bits(place.0);
    print_bits(place.1);
    io::write_all(1, b"\n");
}

// The lines of a lens.
fn print_lens(k1: f64, k2: f64, k3: f64, k4: f64) {
    let camera = camera_with(k1, k2, k3, k4);
    for i in 0..289 {
        print_place(camera, (i % 17) as f64 * 40.0, (i / 17) as f64 * 30.0);
    }
    print_place(camera, 1e200, 0.0);
}

// The equidistant lens, one as calibrations have it, one that has no image at its rim, one whose
// polynomial overflows, and one that is refused.
fn main() {
    print_lens(0.0, 0.0, 0.0, 0.0);
    print_lens(0.0625, -0.0137, 0.0021, -0.00034);
    print_lens(-0.6, -0.25, 0.125, -0.5);
    print_lens(1e308, 1e308, 1e308, 1e308);
    print_lens(0.0, 0.0, 0.0, 0.0 / 0.0);
}
