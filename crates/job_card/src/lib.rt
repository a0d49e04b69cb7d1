// The job card: whether it is well formed, where its fields lie, and their contents.
#![tactic(auto)]

ghost use Rattle.std.specs.Prelude.{◌≡◌, ◌≤◌, length, option_copied, IfOk, IfErr};
ghost use Rattle.prelude.specs.Prelude.{when◌then◌else◌};
ghost use Rattle.job_card.specs.JobCard.{start_at, start_of, contents, is_lens, suits, has_field, has_fields, has_exactly, well_formed, field, field_part};

use fields::number_at;
use number::Refusal;

// The most bytes that a job card has.
const LONGEST: usize = 65535;

// Whether contents are a lens: byte 0 alone, 1 with five floats, or 2 with four.
fn is_lens(s: &[u8]) -> bool
    ensures { result ≡ is_lens s.now }
{
    s.len() == 1 && s[0] == 0 || s.len() == 41 && s[0] == 1 || s.len() == 33 && s[0] == 2
}

// Whether contents suit a tag from 1 to 8. A tag is a number here as on the card, where `fields_end` counts it; callers
// may pass any.
fn suits_tag(tag: u8, s: &[u8]) -> bool
    ensures { result ≡ suits tag s.now }
{
    match tag {
        1 => s.len() == 6,
        2 => true,
        3 => s.len() >= 1,
        4 => s.len() == 16,
        5 | 7 => s.len() == 64,
        6 => s.len() == 1 && s[0] <= 1,
        _ => is_lens(s),
    }
}

// Where the field of a tag ends, whose header stands at i if it is there.
fn field_end(card: &[u8], tag: u8, i: usize) -> Option<usize>
    requires { (1 ≤ tag) × (i ≡ start_of card.now tag) × (i ≤ length card.now) }
    ensures { result ≡ (when has_field card.now tag then Some (start_at card.now tag) else None) }
{
    if card.len() - i < 3 || card[i] != tag {
        return None;
    }
    let start = i + 3;
    let end = start + number_at(card, i + 1, 2) as usize;
    let contents = card.get(start..end)?;
    suits_tag(tag, contents).then_some(end)
}

// Where the fields 1 to n of a card end.
fn fields_end(card: &[u8], n: u8) -> Option<usize>
    ensures { result ≡ (when has_fields card.now n then Some (start_at card.now n) else None) }
{
    let mut i: usize = 0;
    for k in 0..n {
        i = field_end(card, k + 1, i)?;
    }
    Some(i)
}

// Whether a card has the fields 1 to n, and nothing behind them. Callers may ask of any number, past the eight that a card
// has too.
pub fn has_exactly(card: &[u8], n: u8) -> bool
    ensures { result ≡ has_exactly card.now n }
{
    fields_end(card, n) == Some(card.len())
}

// Whether a job card is well formed: at most 65,535 bytes, and the fields 1 to 6, or with a camera 1 to 8.
pub fn well_formed(card: &[u8]) -> bool
    ensures { result ≡ well_formed card.now }
{
    card.len() <= LONGEST && (has_exactly(card, 6) || has_exactly(card, 8))
}

// The contents of a field, where it and those before it are there.
fn part_of(card: &[u8], tag: u8) -> Option<&[u8]>
    requires { (1 ≤ tag) × (tag ≤ 8) }
    ensures { option_copied result ≡ (when has_fields card.now tag then Some (contents card.now tag) else None) }
{
    let i = fields_end(card, tag - 1)?;
    let end = field_end(card, tag, i)?;
    Some(&card[i + 3..end])
}

// The part of a job card that is a field's contents; empty where 7 or 8 is absent. A malformed card is refused, and so is
// a tag that is not listed.
pub fn find_field(card: &[u8], tag: u8) -> Result<&[u8], Refusal>
    ensures refused { IfErr result (λ refusal. field card.now tag ≡ Err refusal) }
    ensures found { IfOk result (λ part. field card.now tag ≡ Ok part.now) }
{
    if 1 <= tag && tag <= 8 && well_formed(card) {
        Ok(part_of(card, tag).unwrap_or(&[]))
    } else {
        Err(Refusal::Card)
    }
}

// The contents of a field of a job card, as `find_field` hands them back; empty where it refuses. A tag is a number, as
// `suits_tag` says.
pub fn part(card: &[u8], tag: u8) -> &[u8]
    ensures { result.now ≡ field_part card.now tag }
{
    find_field(card, tag).unwrap_or(&[])
}
