// refine.rs, `refine_corners` and `refine_corners_mapped`: the entry checks, and the rounds behind them.
#![tactic(auto)]

ghost use Rattle.std.specs.Prelude.{◌≡◌, ◌*◌, min};
ghost use Rattle.sample_tree.specs.Samplers.{Samples};
ghost use Rattle.request.specs.Requests.{lent, plain};
ghost use Rattle.refine.specs.Refine.{plan_of, refine, refinement};

use consts::MAX_EDGE_POINTS;
use corners::Answer;
use fit::EdgePoints;
use photograph::Photograph;
use probe::Plan;
use request::Request;
use sample_tree::{Meter, Sampler};

// A label's corners, refined on the photograph as it is, whatever camera is asked for. Refused by an entry
// check, then by `Quad`, by `Thin`, or by the refusal of an edge. The Rust has both calls, so they stay two.
pub fn refine_corners(photograph: Photograph, modules: &[u8], request: Request) -> Answer
    ensures { result ≡ refine (plain request) modules.now
        (lent photograph.entry) }
{
    refine_corners_mapped(photograph, modules, request.plain())
}

// The same, as seen through the camera where there is one. No marks are wanted, so an empty sheet and an empty copy
// are lent.
pub fn refine_corners_mapped(photograph: Photograph, modules: &[u8], request: Request) -> Answer
    ensures { result ≡ refine request modules.now
        (lent photograph.entry) }
{
    request::entry(photograph, modules, request)?;
    let mut sampler = Sampler {
        photograph,
        scene: request.scene(),
        sheet: &mut [],
        copy: &mut [],
        meter: Meter::default(),
    };
    refine_entered(&mut sampler, modules, request)
}

// How many of so many bytes are the label's own modules. Behind the check by `Grid` they are all there.
fn own_modules(dim: u32, bytes: usize) -> usize
    ensures { result ≡ min (dim * dim) bytes }
{
    request::area(dim, dim).min(bytes)
}

// What the rounds go by.
fn plan_of(request: Request) -> Plan
    ensures { result ≡ plan_of request }
{
    Plan {
        settings: request.settings,
        dim: request.dim,
        inverted: request.inverted,
    }
}

// The rounds behind the entry checks. Bytes behind the label's own modules are not lent to them. The room for an edge's
// points is made here, once for all edges of all rounds.
pub fn refine_entered(sampler: &mut Sampler, modules: &[u8], request: Request) -> Answer
    ensures { Samples sampler.old sampler.new (refinement request modules.now) result }
{
    let n = own_modules(request.dim, modules.len());
    let q = request::source_corners(request);
    let mut xs = [0.0; MAX_EDGE_POINTS];
    let mut ys = [0.0; MAX_EDGE_POINTS];
    let mut weights = [0.0; MAX_EDGE_POINTS];
    let mut residuals = [0.0; MAX_EDGE_POINTS];
    let mut found = EdgePoints::none(&mut xs, &mut ys, &mut weights, &mut residuals);
    rounds::refine_rounds(sampler, &mut found, plan_of(request), &modules[..n], q)
}
