// refine.rs, what the edges of a round come to: the corners where they cross, or the round's refusal.
#![tactic(auto)]

ghost use Rattle.std.specs.Prelude.{◌≡◌, ◌<◌};
ghost use Rattle.corners.specs.Corners.{crossed_at, line_count, nothing_refined, numbered, refined_corners, round_end, round_ended};

use edges::Edges;
use fit::EdgeStat;
use number::Refusal;
use pixel::SourcePixel;

// Four corners in source pixels, or with a camera in rectified pixels; what is counted of the four edges, and which
// corners were refined.
#[derive(Clone, Copy)]
pub struct RefinedCorners {
    pub corners: [SourcePixel; 4],
    pub edge_stats: [EdgeStat; 4],
    pub corner_refined: [bool; 4],
}

// What a refinement returns: the corners, or why there are none.
pub type Answer = Result<RefinedCorners, Refusal>;

// What stands for the corners of a refusal, where all are written: zeros, nothing counted, and flags off.
pub fn nothing_refined() -> RefinedCorners
    ensures { result ≡ nothing_refined }
{
    RefinedCorners {
        corners: [SourcePixel(0.0, 0.0); 4],
        edge_stats: [edges::no_stat(); 4],
        corner_refined: [false; 4],
    }
}

// An answer by its number, as C is given it: 0 and the corners, or the number of a refusal and what stands for them.
#[derive(Clone, Copy)]
pub struct NumberedAnswer {
    pub number: u32,
    pub refined: RefinedCorners,
}

impl From<Answer> for NumberedAnswer {
    ghost from_gives = { λ answer given. given ≡ numbered answer };

    fn from(answer: Answer) -> NumberedAnswer {
        NumberedAnswer {
            number: number::number_of(&answer),
            refined: answer.unwrap_or(nothing_refined()),
        }
    }
}

// How many of the four edges have a line.
fn line_count(edges: Edges) -> usize
    ensures { result ≡ line_count edges }
{
    edges.lines.iter().filter(|line| line.is_some()).count()
}

// Where the edges before and behind corner i cross, if both have a line. The point is computed along the
// one before: along the other it would round otherwise.
fn crossed_at(edges: Edges, i: usize) -> Option<SourcePixel>
    requires { i < 4 }
    ensures { result ≡ crossed_at edges i }
{
    let before = edges.lines[(i + 3) % 4]?;
    let behind = edges.lines[i]?;
    line::cross_lines(before, behind)
}

// The corners of a round that started from q: one that is not refined keeps its start.
fn refined_corners(q: [SourcePixel; 4], edges: Edges) -> RefinedCorners
    ensures { result ≡ refined_corners q edges }
{
    let crossed = [
        crossed_at(edges, 0),
        crossed_at(edges, 1),
        crossed_at(edges, 2),
        crossed_at(edges, 3),
    ];
    let edge_stats = edges.edge_stats;
    let corner_refined = crossed.map(|corner| corner.is_some());
    RefinedCorners {
        corners: [
            crossed[0].unwrap_or(q[0]),
            crossed[1].unwrap_or(q[1]),
            crossed[2].unwrap_or(q[2]),
            crossed[3].unwrap_or(q[3]),
        ],
        edge_stats,
        corner_refined,
    }
}

// The end of a round whose edges are not refused: its corners, or too few edges with a line.
fn ended(q: [SourcePixel; 4], edges: Edges) -> Answer
    ensures { result ≡ round_end q edges }
{
    if line_count(edges) < 2 {
        return Err(Refusal::Thin);
    }
    Ok(refined_corners(q, edges))
}

// The end of a round that started from q: what refuses its edges, and else its corners, or too few edges with a line.
pub fn round_end<R>(q: [SourcePixel; 4], edges: Result<Edges, R>) -> Result<Answer, R>
    ensures { result ≡ round_ended q edges }
{
    Ok(ended(q, edges?))
}
