// The lines that are printed of an answer, as text in a buffer.
#![tactic(auto)]

ghost use Rattle.io.specs.Counts.{IsPrefixLen};
ghost use Rattle.fields.specs.Output.{Writes};
ghost use Rattle.report.specs.Lines.{
  result_line,
  corner_line,
  edge_line,
  corner_lines,
  edge_lines,
  numbered_lines,
  answer_lines,
};
ghost use Rattle.report.specs.Puts.{Puts};
ghost use Rattle.corners.specs.Corners.{Answer, ConvertsAs};

use corners::{NumberedAnswer, RefinedCorners};
use fields::Output;
use fit::EdgeStat;
use pixel::SourcePixel;
use text::{put_bit, put_decimal, put_hexadecimal};

// The line of the number.
fn put_result(out: &mut Output<'_>, number: u32)
    ensures { Writes out.old out.new (result_line number) }
{
    out.put(b"result");
    put_decimal(out, number as u64);
    out.put(b"\n");
}

// The line of one corner.
fn put_corner(out: &mut Output<'_>, i: u64, c: SourcePixel, refined: bool)
    ensures { Writes out.old out.new (corner_line i c refined) }
{
    out.put(b"corner");
    put_decimal(out, i);
    put_hexadecimal(out, ieee::bits_of(c.0));
    put_hexadecimal(out, ieee::bits_of(c.1));
    put_bit(out, refined);
    out.put(b"\n");
}

// The line of one edge.
fn put_edge(out: &mut Output<'_>, i: u64, e: EdgeStat)
    ensures { Writes out.old out.new (edge_line i e) }
{
    out.put(b"edge");
    put_decimal(out, i);
    put_decimal(out, e.points_probed as u64);
    put_decimal(out, e.points_fit as u64);
    put_decimal(out, e.dropped_outliers as u64);
    put_bit(out, e.valid);
    out.put(b"\n");
}

// The lines of the four corners.
fn put_corners(out: &mut Output<'_>, r: RefinedCorners)
    ensures { Writes out.old out.new (corner_lines r) }
{
    for i in 0..4 {
        put_corner(out, i as u64, r.corners[i], r.corner_refined[i]);
    }
}

// The lines of the four edges.
fn put_edges(out: &mut Output<'_>, r: RefinedCorners)
    ensures { Writes out.old out.new (edge_lines r) }
{
    for i in 0..4 {
        put_edge(out, i as u64, r.edge_stats[i]);
    }
}

// Writes an answer's lines: those of its corners and edges behind 0 alone.
fn put_answer(out: &mut Output<'_>, answer: NumberedAnswer)
    ensures { Writes out.old out.new (numbered_lines answer) }
{
    put_result(out, answer.number);
    if answer.number == number::ANSWER {
        put_corners(out, answer.refined);
        put_edges(out, answer.refined);
    }
}

// Writes an answer's lines to the front of `buffer`, and answers how many bytes they take: an `Answer`, or a `NumberedAnswer`
// with any number.
pub fn answer_lines<A: Into<NumberedAnswer>>(answer: A, buffer: &mut [u8; 1024]) -> usize
    ensures prefix_len { IsPrefixLen result buffer.new }
    ensures numbered { (given : _) × A.converts answer given
        × Puts buffer.old 0 (numbered_lines given) buffer.new result }
    ensures puts { (a : Answer) → ConvertsAs A.converts answer a
        → Puts buffer.old 0 (answer_lines a) buffer.new result }
{
    let given: NumberedAnswer = answer.into();
    let mut out = Output::new(buffer);
    put_answer(&mut out, given);
    out.at
}
