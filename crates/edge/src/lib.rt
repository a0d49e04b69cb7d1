// refine.rs, one edge of a round: its probes, the points that they find, and the line through those.
#![tactic(auto)]

ghost use Rattle.std.specs.Prelude.{◌≡◌, [], ◌≤◌, length};
ghost use Rattle.consts.specs.Consts.{max_edge_points};
ghost use Rattle.sample_tree.specs.Samplers.{Samples};
ghost use Rattle.edge.specs.Edge.{localize_probe, points, edge_length, edge as edge_of};

use consts::Settings;
use fit::{EdgeFit, EdgePoints};
use number::Refusal;
use pixel::{EdgePoint, SourcePixel};
use probe::{Plan, ProbeRay, Side};
use probes::Probes;
use sample_tree::Sampler;

// ---- a probe's point

// The point of a probe. Too short a module ends it unread.
fn localize_probe(sampler: &mut Sampler, settings: Settings, aim: ProbeRay) -> Option<EdgePoint>
    ensures { Samples sampler.old sampler.new (localize_probe settings aim) result }
{
    if aim.perp_module_px < 1e-9 {
        return None;
    }
    profile::localize(sampler, settings, aim.ray)
}

// ---- the points

// The points that an edge's probes find, put where there is none yet; and how many probes there are.
#[inline(never)]
fn find_points(
    sampler: &mut Sampler,
    plan: Plan,
    side: Side,
    probes: Probes,
    found: &mut EdgePoints,
) -> u32
    requires none { found.old ≡ [] }
    requires few { length probes ≤ max_edge_points }
    ensures found { Samples sampler.old sampler.new (points plan side probes.entry []) found.new }
    ensures probed { result ≡ length probes.entry }
{
    let mut probed: u32 = 0;
    for probe in probes {
        let aim = probe::probe_ray(plan, side, probe);
        if let Some(point) = localize_probe(sampler, plan.settings, aim) {
            found.push(point);
        }
        probed += 1;
    }
    probed
}

// ---- the edge

// The distance of two corners.
fn length_of(a: SourcePixel, b: SourcePixel) -> f64
    ensures { result ≡ edge_length a b }
{
    let dx = b.0 - a.0;
    let dy = b.1 - a.1;
    ieee_root::sqrt(dx * dx + dy * dy)
}

// One edge of a round: where its corners coincide there is no line, and nothing is counted. The points are those of this
// edge alone, in room that is lent, and are taken away again.
pub fn refine_edge(
    sampler: &mut Sampler,
    found: &mut EdgePoints,
    plan: Plan,
    modules: &[u8],
    side: Side,
) -> Result<EdgeFit, Refusal>
    ensures answer { Samples sampler.old sampler.new (edge_of plan modules.now side) result }
    ensures left { found.new ≡ [] }
{
    found.clear();
    let len = length_of(side.from, side.to);
    if len < 1e-9 {
        return Ok(EdgeFit {
            line: None,
            stat: edges::no_stat(),
        });
    }
    let probes = probes::probes_of(plan.settings, modules, plan.dim, side.edge);
    let probed = find_points(sampler, plan, side, probes, found);
    found.fit_edge(plan.settings, probed, len / plan.dim as f64)
}
