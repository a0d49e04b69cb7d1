// A result card written of an answer, field by field.
ghost use Rattle.std.specs.Prelude.{◌≡◌, ◌<◌, [], ◌∷◌, length};
ghost use Rattle.fields.specs.Fields.{bytes_of, float_bytes};
ghost use Rattle.fields.specs.Output.{Writes};
ghost use Rattle.result_card.specs.ResultCard.{
  corner_bytes,
  wide,
  stat_bytes,
  flag_bytes,
  result_card,
  card_size,
  with_card,
};

use crate::form::{CORNERS_SIZE, FLAGS_SIZE, Form};
use corners::RefinedCorners;
use fields::Output;
use fit::EdgeStat;
use pixel::SourcePixel;

// Writes a float.
fn put_float(out: &mut Output<'_>, x: f64)
    ensures { Writes out.old out.new (float_bytes x) }
{
    out.put(&ieee::bits_of(x).to_le_bytes());
}

// Writes a field's tag, a number as on the card, and its length.
pub(crate) fn put_header(out: &mut Output<'_>, tag: u8, size: usize)
    requires { size < 65536 }
    ensures { Writes out.old out.new (tag ∷ bytes_of 2 size) }
{
    out.put(&[tag]);
    out.put(&(size as u16).to_le_bytes());
}

// Writes a corner.
fn put_corner(out: &mut Output<'_>, c: SourcePixel)
    ensures { Writes out.old out.new (corner_bytes (c ∷ [])) }
{
    put_float(out, c.0);
    put_float(out, c.1);
}

// Writes corners, one behind the other. Like the counts and the flags below in a loop of one line: a trait for what a
// card holds would be longer than the three.
fn put_corners(out: &mut Output<'_>, corners: &[SourcePixel])
    ensures { Writes out.old out.new (corner_bytes corners.now) }
{
    for c in corners {
        put_corner(out, *c);
    }
}

// Writes a count, in the bytes that a form has for it.
fn put_count(out: &mut Output<'_>, form: Form, count: u32)
    ensures { Writes out.old out.new (bytes_of (wide form) count) }
{
    match form {
        Form::Older => out.put(&[(count % 256) as u8]),
        Form::Newer => out.put(&((count % 65536) as u16).to_le_bytes()),
    }
}

// Writes an edge's counts.
fn put_stat(out: &mut Output<'_>, form: Form, e: EdgeStat)
    ensures { Writes out.old out.new (stat_bytes form (e ∷ [])) }
{
    put_count(out, form, e.points_probed);
    put_count(out, form, e.points_fit);
    put_count(out, form, e.dropped_outliers);
    out.put(&[u8::from(e.valid)]);
}

// Writes the counts of edges, one behind the other.
pub(crate) fn put_stats(out: &mut Output<'_>, form: Form, stats: &[EdgeStat])
    ensures { Writes out.old out.new (stat_bytes form stats.now) }
{
    for e in stats {
        put_stat(out, form, *e);
    }
}

// Writes a flag, as 0 or 1.
fn put_flag(out: &mut Output<'_>, flag: bool)
    ensures { Writes out.old out.new (flag_bytes (flag ∷ [])) }
{
    out.put(&[u8::from(flag)]);
}

// Writes flags, one behind the other.
fn put_flags(out: &mut Output<'_>, flags: &[bool])
    ensures { Writes out.old out.new (flag_bytes flags.now) }
{
    for flag in flags {
        put_flag(out, *flag);
    }
}

// Writes a result card.
fn put_fields(out: &mut Output<'_>, form: Form, r: RefinedCorners)
    ensures card { Writes out.old out.new (result_card form r) }
    ensures len { length (result_card form r) ≡ card_size form }
{
    put_header(out, 16, CORNERS_SIZE);
    put_corners(out, &r.corners);
    put_header(out, form.tag(), 4 * form.stat_size());
    put_stats(out, form, &r.edge_stats);
    put_header(out, 18, FLAGS_SIZE);
    put_flags(out, &r.corner_refined);
}

// Writes the result card to the front of a buffer; one of under 105 bytes is left as it was.
pub fn put_result(out: &mut [u8], r: RefinedCorners)
    ensures { out.new ≡ with_card r out.old }
{
    if out.len() >= Form::Newer.size() {
        let mut card = Output::new(out);
        put_fields(&mut card, Form::Newer, r);
    }
}
