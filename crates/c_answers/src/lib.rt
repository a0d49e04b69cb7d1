// How the refinement calls for C and Rust write an answer into the buffers that they are lent.
#![tactic(auto)]

ghost use Rattle.std.specs.Prelude.{◌≡◌, set};
ghost use Rattle.prelude.specs.Prelude.{bit as bit_of};
ghost use Rattle.c_answers.specs.Answers.{with_corners, with_stat, with_stats, with_flags, Written, WrittenNumbered};
ghost use Rattle.corners.specs.Corners.{Answer, ConvertsAs};

use corners::NumberedAnswer;
use fit::EdgeStat;
use pixel::SourcePixel;

// Writes four corners from x0, y0 to x3, y3.
fn put_corners(out: &mut [f64], q: [SourcePixel; 4])
    ensures { out.new ≡ with_corners q out.old }
{
    c_buffers::put_place_at(out, 0, q[0]);
    c_buffers::put_place_at(out, 2, q[1]);
    c_buffers::put_place_at(out, 4, q[2]);
    c_buffers::put_place_at(out, 6, q[3]);
}

// Writes a flag as 0 or 1 at an index.
fn put_flag(out: &mut [u32], i: usize, b: bool)
    ensures { out.new ≡ set out.old i (bit_of b) }
{
    c_buffers::put(out, i, prelude::bit(b));
}

// Writes what is counted of an edge from an index on: probed, fit, dropped, valid.
pub fn put_stat(out: &mut [u32], at: u32, e: EdgeStat)
    ensures { out.new ≡ with_stat at e out.old }
{
    let i = at as usize;
    c_buffers::put(out, i, e.points_probed);
    c_buffers::put(out, i + 1, e.points_fit);
    c_buffers::put(out, i + 2, e.dropped_outliers);
    put_flag(out, i + 3, e.valid);
}

// Writes what is counted of the four edges, one behind the other. Written out: a loop over four needs an invariant that
// says the same again.
fn put_stats(out: &mut [u32], es: [EdgeStat; 4])
    ensures { out.new ≡ with_stats es out.old }
{
    put_stat(out, 0, es[0]);
    put_stat(out, 4, es[1]);
    put_stat(out, 8, es[2]);
    put_stat(out, 12, es[3]);
}

// Writes the four corners' flags behind what is counted of the edges. Written out as `put_stats` is, at the places that
// the C header lists.
fn put_flags(out: &mut [u32], fs: [bool; 4])
    ensures { out.new ≡ with_flags fs out.old }
{
    put_flag(out, 16, fs[0]);
    put_flag(out, 17, fs[1]);
    put_flag(out, 18, fs[2]);
    put_flag(out, 19, fs[3]);
}

// Writes an answer's corners and counts, and gives its number: of a `NumberedAnswer` any corners beside any number, and of an
// `Answer` zeros for a refusal.
#[tactic(auto, using(crate::proofs::Written::written_numbered))]
pub fn put_answer<A: Into<NumberedAnswer>>(answer: A, places: &mut [f64], counts: &mut [u32]) -> u32
    ensures numbered { (given : _) × A.converts answer given
        × WrittenNumbered given result places.old places.new counts.old counts.new }
    ensures written { (a : Answer) → ConvertsAs A.converts answer a
        → Written a result places.old places.new counts.old counts.new }
{
    let given: NumberedAnswer = answer.into();
    put_corners(places, given.refined.corners);
    put_stats(counts, given.refined.edge_stats);
    put_flags(counts, given.refined.corner_refined);
    given.number
}
