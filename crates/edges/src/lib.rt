// refine.rs, what was found of a round's four edges so far: their lines and counts.
#![tactic(auto)]

ghost use Rattle.std.specs.Prelude.{◌≡◌};
ghost use Rattle.edges.specs.Edges.{with_fit, no_edges, no_stat};

use fit::{EdgeFit, EdgeStat};
use line::Line2;

// The lines of a round's edges so far, where they have one, and what is counted of each.
#[derive(Clone, Copy)]
pub struct Edges {
    pub lines: [Option<Line2>; 4],
    pub edge_stats: [EdgeStat; 4],
}

// The counts of an edge of which nothing is counted.
pub fn no_stat() -> EdgeStat
    ensures { result ≡ no_stat }
{
    EdgeStat {
        points_probed: 0,
        points_fit: 0,
        dropped_outliers: 0,
        valid: false,
    }
}

impl Edges {
    // The edges of a round before its first: no line, and nothing counted.
    pub fn none() -> Edges
        ensures { result ≡ no_edges }
    {
        Edges {
            lines: [None; 4],
            edge_stats: [no_stat(); 4],
        }
    }

    // The edges with edge e put in its place, and as they are where e is 4 or more. What refuses the edge refuses them
    // all, and else what refused those before it.
    pub fn with<R: Drop>(
        edges: Result<Edges, R>,
        e: usize,
        fit: Result<EdgeFit, R>,
    ) -> Result<Edges, R>
        ensures { result ≡ with_fit e edges fit }
    {
        let fit = fit?;
        let mut edges = edges?;
        if e < 4 {
            edges.lines[e] = fit.line;
            edges.edge_stats[e] = fit.stat;
        }
        Ok(edges)
    }
}
