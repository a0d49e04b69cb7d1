// refine.rs, `localize_edge_point` as a call: the checks of photograph, camera and settings, then the point, or `Profile`.
#![tactic(auto)]

ghost use Rattle.std.specs.Prelude.{◌≡◌};
ghost use Rattle.edge_point.specs.EdgePoint.{entry_check, localize_edge_point};

use consts::Settings;
use footprint::Scene;
use number::Refusal;
use photograph::Photograph;
use pixel::EdgePoint;
use profile::Ray;
use sample_tree::{Meter, Sampler};

// The checks of the photograph, `Size` and `Photograph`, of its camera, `Lens`, and of the settings, `Settings`.
fn check_entry(photograph: Photograph, scene: Scene, settings: Settings) -> Result<(), Refusal>
    ensures { result ≡ entry_check photograph.entry.bytes.now photograph.entry.stride scene settings }
{
    photograph.check(scene.width, scene.height)?;
    if !footprint::good_view(scene.view) {
        return Err(Refusal::Lens);
    }
    if !consts::good_settings(settings) {
        return Err(Refusal::Settings);
    }
    Ok(())
}

// An edge point of a photograph, as it is or through a camera, or the refusal of those or of the settings, or
// `Profile` where the profile has no edge point. No marks are wanted, so an empty sheet and an empty copy are lent.
pub fn localize_edge_point(
    photograph: Photograph,
    scene: Scene,
    settings: Settings,
    ray: Ray,
) -> Result<EdgePoint, Refusal>
    ensures { result ≡ localize_edge_point photograph.entry.bytes.now photograph.entry.stride scene settings ray }
{
    check_entry(photograph, scene, settings)?;
    let mut sampler = Sampler {
        photograph,
        scene,
        sheet: &mut [],
        copy: &mut [],
        meter: Meter::default(),
    };
    let point = profile::localize(&mut sampler, settings, ray);
    point.ok_or(Refusal::Profile)
}
