// refine.rs, `localize_edge_point`: seven samples along a normal, the peak of their gradients, three
// passes, and where those tend.
#![tactic(auto)]

ghost use Rattle.std.specs.Prelude.{◌≡◌, ◌<◌, ℕ, slice_index_or};
ghost use Rattle.ieee.specs.Floats.{◌⊖◌, float, f3};
ghost use Rattle.pixel.specs.declared.SourcePixel.{SourcePixel};
ghost use Rattle.sample_tree.specs.Samplers.{Samples};
ghost use Rattle.profile.specs.Profile.{localize as localized, offset_along};

use consts::Settings;
use pixel::{Direction, EdgePoint, SourcePixel};
use sample_tree::Sampler;

// Passes of a point: the Aitken step is derived for exactly three.
const PASSES: usize = 3;

// Samples of a pass, half a module apart, at the offsets -3 to 3.
const SAMPLES: u32 = 7;

// Where an edge point is looked for: around a coarse place, along a normal, by steps of half a module; and
// what lies there: the label's polarity, and whether the module behind the edge is light.
#[derive(Clone, Copy)]
pub struct Ray {
    pub coarse: SourcePixel,
    pub normal: Direction,
    pub step: f64,
    pub inverted: bool,
    pub inward_differs: bool,
}

// ---- the profile

// The place at an offset of so many steps from c.
fn offset_along(normal: Direction, step: f64, c: SourcePixel, offset: f64) -> SourcePixel
    ensures { result ≡ offset_along normal step c offset }
{
    SourcePixel(
        c.0 + normal.x * offset * step,
        c.1 + normal.y * offset * step,
    )
}

// The places of the seven samples around c, by an index, as `camera` fills its arrays.
fn places(normal: Direction, step: f64, c: SourcePixel) -> [SourcePixel; 7]
    ensures { (i : ℕ) (p : SourcePixel) → i < 7 →
        slice_index_or result i p ≡ offset_along normal step c (float i ⊖ f3) }
{
    let mut all = [c; 7];
    for k in 0..SAMPLES {
        all[k as usize] = offset_along(normal, step, c, k as f64 - 3.0);
    }
    all
}

// ---- three passes

// An edge point by three passes of seven samples, each around the point that the one before found.
// The first rejected sample, and a profile without a peak, ends the point: by a label and not by `?`, a form that
// document 01 asks for.
#[inline(always)]
fn localize_by(sampler: &mut Sampler, settings: Settings, ray: Ray) -> Option<EdgePoint>
    ensures { Samples sampler.old sampler.new (localized settings ray) result }
{
    let normal = ray.normal;
    let step = ray.step;
    let mut point = EdgePoint {
        pos: ray.coarse,
        weight: 0.0,
    };
    let mut samples = [0.0f64; 7];
    let mut xs = [0.0f64; 3];
    'passes: {
        for pass in 0..PASSES {
            let center = point.pos;
            let places = places(normal, step, center);
            let carried = footprint::carried_through(sampler.scene.view, places);
            for k in 0..SAMPLES {
                let Some(v) = sampler.sample(carried[k as usize]) else {
                    break 'passes;
                };
                samples[k as usize] = v;
            }
            let Some(peak) = peak::find_peak(settings, ray.inverted, ray.inward_differs, samples)
            else {
                break 'passes;
            };
            point = EdgePoint {
                pos: offset_along(normal, step, center, peak.offset),
                weight: peak.weight,
            };
            xs[pass] = aitken::projection(normal, point.pos);
        }
        return aitken::aitken(normal, step, point, xs);
    }
    None
}

// An edge point, by a sampler of the function's own that lends the same: what it holds stays in registers, where a
// sample would read it from memory again, and a job on a large photograph took a tenth longer.
pub fn localize(sampler: &mut Sampler, settings: Settings, ray: Ray) -> Option<EdgePoint>
    ensures { Samples sampler.old sampler.new (localized settings ray) result }
{
    let mut own = Sampler {
        photograph: sampler.photograph,
        scene: sampler.scene,
        sheet: &mut *sampler.sheet,
        copy: &mut *sampler.copy,
        meter: sampler.meter,
    };
    let found = localize_by(&mut own, settings, ray);
    sampler.meter = own.meter;
    found
}
