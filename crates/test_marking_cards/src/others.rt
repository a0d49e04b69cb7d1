// Cards that differ from a card in their photograph alone.
ghost use Rattle.std.specs.Prelude.{◌^◌, ◌<◌};

use crate::bytes::{behind, front, poison};
use fields::Output;

// A good card begins with field 1 and the header of field 2: so many bytes.
pub(crate) const HEAD: usize = 12;

// So many bytes lie behind the blanked copy, and between the rows of the other photograph.
const GAP: u32 = 3;

// What field 1 says.
#[derive(Clone, Copy)]
pub(crate) struct Shape {
    width: u16,
    height: u16,
    stride: u16,
}

impl Shape {
    // How many pixels the picture has.
    pub(crate) fn area(self) -> usize
        ensures { result < 2 ^ 48 }
    {
        self.width as usize * self.height as usize
    }
}

// The two bytes at a place as a number.
fn number_at(s: &[u8], i: usize) -> u16 {
    fields::number_at(s, i, 2) as u16
}

// The size and stride of a card's picture.
pub(crate) fn shape_of(card: &[u8]) -> Shape {
    Shape {
        width: number_at(card, 3),
        height: number_at(card, 5),
        stride: number_at(card, 7),
    }
}

// The two low bytes of a number, the lowest first.
fn put_number(out: &mut Output<'_>, n: u64) {
    out.put(&n.to_le_bytes()[..2]);
}

// n bytes that no run writes by chance.
fn put_poison(out: &mut Output<'_>, n: u32, seed: u8) {
    for i in 0..n {
        out.put(&[poison(i as usize, seed)]);
    }
}

// The card's head, with another stride and the length of another photograph.
fn put_head(out: &mut Output<'_>, card: &[u8], stride: u32, n: usize) {
    out.put(front(card, 7));
    put_number(out, stride as u64);
    out.put(&[2]);
    put_number(out, n as u64);
}

// The card's fields behind its photograph.
fn put_rest(out: &mut Output<'_>, card: &[u8]) {
    out.put(behind(card, HEAD + number_at(card, 10) as usize));
}

// The card over the blanked copy, with other bytes behind it. Like the next, it answers where the new card ends.
pub(crate) fn over_copy(out: &mut [u8], card: &[u8], copy: &[u8]) -> usize {
    let shape = shape_of(card);
    let mut other = Output::new(out);
    put_head(
        &mut other,
        card,
        shape.width as u32,
        shape.area() + GAP as usize,
    );
    other.put(copy);
    put_poison(&mut other, GAP, 77);
    put_rest(&mut other, card);
    other.at
}

// A marked pixel as it is, and for another one a value that it has not.
fn kept(mark: u8, byte: u8) -> u8 {
    if mark == 1 { byte } else { 255 - byte }
}

// A row of pixels, by the photograph's bytes and the marks, and the gap behind it.
fn put_row(out: &mut Output<'_>, photo: &[u8], marks: &[u8]) {
    for (byte, mark) in photo.iter().zip(marks) {
        out.put(&[kept(*mark, *byte)]);
    }
    put_poison(out, GAP, 142);
}

// The card over a photograph with gaps between its rows that has only the marked pixels in common with the card's own.
pub(crate) fn over_others(out: &mut [u8], card: &[u8], sheet: &[u8]) -> usize {
    let shape = shape_of(card);
    let stride = shape.width as u32 + GAP;
    let mut other = Output::new(out);
    put_head(
        &mut other,
        card,
        stride,
        stride as usize * shape.height as usize,
    );
    if shape.width > 0 && shape.stride > 0 {
        let rows = behind(card, HEAD).chunks(shape.stride as usize);
        for (photo, marks) in rows.zip(sheet.chunks(shape.width as usize)) {
            put_row(&mut other, photo, marks);
        }
    }
    put_rest(&mut other, card);
    other.at
}
