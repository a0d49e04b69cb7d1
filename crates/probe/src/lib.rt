// refine.rs, where a probe of an edge looks.
#![tactic(auto)]

ghost use Rattle.std.specs.Prelude.{◌≡◌};
ghost use Rattle.probe.specs.Probe.{point_on_side, probe_ray};

use consts::Settings;
use grid::LabelEdge;
use homography::PerspectiveTransform;
use pixel::{Direction, SourcePixel};
use probes::Probe;
use profile::Ray;

// What a refinement goes by: the settings, and the label's side in modules and its polarity.
#[derive(Clone, Copy)]
pub struct Plan {
    pub settings: Settings,
    pub dim: u32,
    pub inverted: bool,
}

// One side of the label in a round: the round's map, which edge it is (0 top, 1 right, 2 bottom, 3 left), and the
// corners that it joins. The edge is a number, as callers may pass any: past 2 it is the left one.
#[derive(Clone, Copy)]
pub struct Side {
    pub map: PerspectiveTransform,
    pub edge: u32,
    pub from: SourcePixel,
    pub to: SourcePixel,
}

// Where a probe looks: the length of its local module, and the ray there.
#[derive(Clone, Copy)]
pub struct ProbeRay {
    pub perp_module_px: f64,
    pub ray: Ray,
}

// A point of the unit square, t along an edge: at the top and the left `near` from the side, at the other two `far`
// from the opposite one.
fn point_on_side(edge: LabelEdge, near: f64, far: f64, t: f64) -> SourcePixel
    ensures { result ≡ point_on_side edge near far t }
{
    match edge {
        LabelEdge::Top => SourcePixel(t, near),
        LabelEdge::Right => SourcePixel(far, t),
        LabelEdge::Bottom => SourcePixel(t, far),
        LabelEdge::Left => SourcePixel(near, t),
    }
}

// Where a probe looks. From the point one module further in to the boundary goes outwards; that length is the
// local module, and half of it the step.
pub fn probe_ray(plan: Plan, side: Side, probe: Probe) -> ProbeRay
    ensures { result ≡ probe_ray plan side probe }
{
    let map = side.map;
    let edge = LabelEdge::from(side.edge);
    let inv_dim = 1.0 / plan.dim as f64;
    let b = point_on_side(edge, 0.0, 1.0, probe.t);
    let i = point_on_side(edge, inv_dim, 1.0 - inv_dim, probe.t);
    let coarse = map.map(b.0, b.1);
    let inner = map.map(i.0, i.1);
    let ox = coarse.0 - inner.0;
    let oy = coarse.1 - inner.1;
    let perp_module_px = ieee_root::sqrt(ox * ox + oy * oy);
    ProbeRay {
        perp_module_px,
        ray: Ray {
            coarse,
            normal: Direction {
                x: ox / perp_module_px,
                y: oy / perp_module_px,
            },
            step: 0.5 * perp_module_px,
            inverted: plan.inverted,
            inward_differs: probe.inward_differs,
        },
    }
}
