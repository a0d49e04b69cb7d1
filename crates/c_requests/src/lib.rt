// What a refinement call for C and Rust asks, by the numbers and lists that it is lent. The parameters are
// those of the C interface.
#![tactic(auto)]

ghost use Rattle.std.specs.Prelude.{◌≡◌};
ghost use Rattle.c_requests.specs.Requests.{lent_request};

use consts::Settings;
use footprint::View;
use request::Request;

// What is asked by what is lent.
pub fn request_of(
    width: u32,
    height: u32,
    dim: u32,
    sx: f64,
    sy: f64,
    corners: &[f64],
    inverted: bool,
    view: View,
    settings: Settings,
) -> Request
    ensures { result ≡ lent_request width height dim sx sy corners.now inverted view settings }
{
    Request {
        width,
        height,
        dim,
        sx,
        sy,
        corners: c_lists::working_of(corners),
        inverted,
        view,
        settings,
    }
}
