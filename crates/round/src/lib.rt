// refine.rs, `refine_round`.
#![tactic(auto)]

ghost use Rattle.std.specs.Prelude.{◌≡◌, ◌<◌, []};
ghost use Rattle.sample_tree.specs.Samplers.{Samples};
ghost use Rattle.edges.specs.Edges.{no_edges};
ghost use Rattle.round.specs.Round.{edges_from, round, side_of};

use corners::Answer;
use edges::Edges;
use fit::EdgePoints;
use homography::PerspectiveTransform;
use number::Refusal;
use pixel::SourcePixel;
use probe::{Plan, Side};
use sample_tree::Sampler;

// ---- the edges

// The side of edge e, from its corner of q to the next.
fn side_of(map: PerspectiveTransform, q: [SourcePixel; 4], e: usize) -> Side
    requires { e < 4 }
    ensures { result ≡ side_of map q e }
{
    Side {
        map,
        edge: e as u32,
        from: q[e],
        to: q[(e + 1) % 4],
    }
}

// The four edges in turn, each from a corner to the next. The refusal of one ends them.
fn fit_edges(
    sampler: &mut Sampler,
    found: &mut EdgePoints,
    plan: Plan,
    modules: &[u8],
    map: PerspectiveTransform,
    q: [SourcePixel; 4],
) -> Result<Edges, Refusal>
    requires { found.old ≡ [] }
    ensures answer { Samples sampler.old sampler.new (edges_from plan modules.now map q 4 0 no_edges) result }
    ensures left { found.new ≡ [] }
{
    let mut edges = Edges::none();
    for e in 0..4 {
        let fit = edge::refine_edge(sampler, found, plan, modules, side_of(map, q, e));
        edges = Edges::with(Ok(edges), e, fit)?;
    }
    Ok(edges)
}

// ---- the round

// One round from the corners q. The room for an edge's points is lent, and left without any.
pub fn refine_round(
    sampler: &mut Sampler,
    found: &mut EdgePoints,
    plan: Plan,
    modules: &[u8],
    q: [SourcePixel; 4],
) -> Answer
    ensures answer { Samples sampler.old sampler.new (round plan modules.now q) result }
    ensures left { found.new ≡ [] }
{
    found.clear();
    let map = quad::square_to_quad(q)?;
    let edges = fit_edges(sampler, found, plan, modules, map, q);
    corners::round_end(q, edges)?
}
