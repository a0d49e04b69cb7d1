// An older result card made a newer one, and back.
ghost use Rattle.std.specs.Prelude.{◌≡◌, ◌<◌, ◌≤◌, ◌^◌, ◌++◌, true, length, drop};
ghost use Rattle.std.specs.List.{list_all};
ghost use Rattle.fields.specs.Fields.{number_at};
ghost use Rattle.fields.specs.Output.{Writes};
ghost use Rattle.result_card.specs.ResultCard.{wide, card_size, stat_from, read_stat};
ghost use Rattle.result_card.specs.Convert.{
  is_head,
  are_bits,
  is_card,
  read_stats,
  converted,
  is_small,
  widen_answer,
  widened,
  narrow_answer,
  narrowed,
};

use crate::form::{CORNERS_SIZE, FIRST_STAT, FLAGS_SIZE, Form, STATS_AT};
use crate::write::{put_header, put_stats};
use fields::{Output, byte_at};
use fit::EdgeStat;
use number::Refusal;

// Whether a field of this tag and this length begins at a place.
fn is_head(tag: u8, size: usize, card: &[u8], at: usize) -> bool
    requires { at < 2 ^ 63 }
    ensures { result ≡ is_head tag size card.now at }
{
    byte_at(card, at) == tag as u64 && fields::number_at(card, at + 1, 2) == size as u64
}

// Whether four bytes are each 0 or 1, from a place on and each so far behind the one before.
fn are_bits(card: &[u8], at: usize, step: usize) -> bool
    requires { (at < 2 ^ 62) × (step ≤ 7) }
    ensures { result ≡ are_bits card.now at step }
{
    [at, at + step, at + 2 * step, at + 3 * step]
        .iter()
        .all(|i| byte_at(card, *i) <= 1)
}

// Whether a card is one of this form.
fn is_card(form: Form, card: &[u8]) -> bool
    ensures { result ≡ is_card form card.now }
{
    card.len() == form.size()
        && is_head(16, CORNERS_SIZE, card, 0)
        && is_head(form.tag(), 4 * form.stat_size(), card, STATS_AT)
        && is_head(18, FLAGS_SIZE, card, form.flags_at())
        && are_bits(card, FIRST_STAT + 3 * form.wide(), form.stat_size())
        && are_bits(card, form.flags_at() + 3, 1)
}

// The count at a place.
fn count_at(form: Form, card: &[u8], at: usize) -> u32
    ensures { result ≡ number_at (wide form) card.now at }
{
    match form {
        Form::Older => byte_at(card, at) as u32,
        Form::Newer => fields::number_at(card, at, 2) as u32,
    }
}

// The counts of an edge, from a place on.
fn stat_from(form: Form, card: &[u8], at: usize) -> EdgeStat
    requires { at < 2 ^ 63 }
    ensures { result ≡ stat_from form card.now at }
{
    let wide = form.wide();
    EdgeStat {
        points_probed: count_at(form, card, at),
        points_fit: count_at(form, card, at + wide),
        dropped_outliers: count_at(form, card, at + 2 * wide),
        valid: byte_at(card, at + 3 * wide) == 1,
    }
}

// The counts of edge i.
fn read_stat(form: Form, card: &[u8], i: usize) -> EdgeStat
    requires { i < 4 }
    ensures { result ≡ read_stat form card.now i }
{
    stat_from(form, card, FIRST_STAT + form.stat_size() * i)
}

// The counts of the four edges.
fn read_stats(form: Form, card: &[u8]) -> [EdgeStat; 4]
    ensures { result ≡ read_stats form card.now }
{
    [
        read_stat(form, card, 0),
        read_stat(form, card, 1),
        read_stat(form, card, 2),
        read_stat(form, card, 3),
    ]
}

// Writes a part of a card, by way of a copy: the archive for C is to need no `memmove`.
fn put_part(out: &mut Output<'_>, part: &[u8])
    requires { length part.now ≤ 67 }
    ensures { Writes out.old out.new part.now }
{
    let mut copy = [0u8; STATS_AT];
    let front = &mut copy[..part.len()];
    front.copy_from_slice(part);
    out.put(front);
}

// Writes a card in another form: corners and flags as they are, and the counts between them.
fn put_converted(out: &mut Output<'_>, from: Form, to: Form, card: &[u8])
    requires { is_card from card.now ≡ true }
    ensures card { Writes out.old out.new (converted from to card.now) }
    ensures len { length (converted from to card.now) ≡ card_size to }
{
    put_part(out, &card[..STATS_AT]);
    put_header(out, to.tag(), 4 * to.stat_size());
    put_stats(out, to, &read_stats(from, card));
    put_part(out, &card[from.flags_at()..]);
}

// Whether each count has room in a byte.
fn is_small(e: EdgeStat) -> bool
    ensures { result ≡ is_small e }
{
    e.points_probed <= 255 && e.points_fit <= 255 && e.dropped_outliers <= 255
}

// Whether each count of edges has room in a byte.
fn all_small(stats: &[EdgeStat]) -> bool
    ensures { result ≡ list_all is_small stats.now }
{
    stats.iter().all(|e| is_small(*e))
}

// Writes a card in another form to the front of a buffer.
fn convert(from: Form, to: Form, card: &[u8], out: &mut [u8])
    requires { (is_card from card.now ≡ true) × (card_size to ≤ length out.old) }
    ensures { out.new ≡ converted from to card.now ++ drop (card_size to) out.old }
{
    put_converted(&mut Output::new(out), from, to, card);
}

// Writes an older result card as a newer one, to the front of a buffer.
pub fn widen_result_card(card: &[u8], out: &mut [u8]) -> Result<(), Refusal>
    ensures answer { result ≡ widen_answer card.now out.old }
    ensures left { out.new ≡ widened card.now out.old }
{
    if !is_card(Form::Older, card) {
        return Err(Refusal::Form);
    }
    if out.len() < Form::Newer.size() {
        return Err(Refusal::Card);
    }
    convert(Form::Older, Form::Newer, card, out);
    Ok(())
}

// Writes a newer result card as an older one, to the front of a buffer, where every count is at most 255.
pub fn narrow_result_card(card: &[u8], out: &mut [u8]) -> Result<(), Refusal>
    ensures answer { result ≡ narrow_answer card.now out.old }
    ensures left { out.new ≡ narrowed card.now out.old }
{
    if !is_card(Form::Newer, card) {
        return Err(Refusal::Form);
    }
    if !all_small(&read_stats(Form::Newer, card)) {
        return Err(Refusal::Count);
    }
    if out.len() < Form::Older.size() {
        return Err(Refusal::Card);
    }
    convert(Form::Newer, Form::Older, card, out);
    Ok(())
}
