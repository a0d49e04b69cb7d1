// refine.rs, the rounds of `refine_corners`.
#![tactic(auto)]

ghost use Rattle.std.specs.Prelude.{◌≡◌, ◌-◌, []};
ghost use Rattle.sample_tree.specs.Samplers.{Samples};
ghost use Rattle.rounds.specs.Rounds.{is_weak, remaining_rounds, rounds};

use corners::{Answer, RefinedCorners};
use fit::EdgePoints;
use number::Refusal;
use pixel::SourcePixel;
use probe::Plan;
use sample_tree::Sampler;

// No map, or under two valid edges.
fn is_weak(refusal: Refusal) -> bool
    ensures { result ≡ is_weak refusal }
{
    matches!(refusal, Refusal::Quad | Refusal::Thin)
}

// The rounds after the first, each from the corners of the last. A weak refusal ends them and leaves the corners
// that there are, since those are still measured; any other ends the refinement.
fn remaining_rounds(
    sampler: &mut Sampler,
    found: &mut EdgePoints,
    plan: Plan,
    modules: &[u8],
    first: RefinedCorners,
) -> Answer
    requires { found.old ≡ [] }
    ensures answer { Samples sampler.old sampler.new (remaining_rounds plan modules.now (plan.settings.rounds - 1) first) result }
    ensures left { found.new ≡ [] }
{
    let mut best = first;
    for _ in 1..plan.settings.rounds {
        match round::refine_round(sampler, found, plan, modules, best.corners) {
            Ok(next) => best = next,
            Err(refusal) if is_weak(refusal) => return Ok(best),
            Err(refusal) => return Err(refusal),
        }
    }
    Ok(best)
}

// All rounds. The first one's refusal is the refinement's. The room for an edge's points is lent, and left without any.
pub fn refine_rounds(
    sampler: &mut Sampler,
    found: &mut EdgePoints,
    plan: Plan,
    modules: &[u8],
    q: [SourcePixel; 4],
) -> Answer
    ensures answer { Samples sampler.old sampler.new (rounds plan modules.now q) result }
    ensures left { found.new ≡ [] }
{
    let first = round::refine_round(sampler, found, plan, modules, q)?;
    remaining_rounds(sampler, found, plan, modules, first)
}
