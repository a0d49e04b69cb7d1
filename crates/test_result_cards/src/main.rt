// Reads result cards and prints what each is converted to. A card is 0 for widening or 1 for narrowing in one byte, how many bytes
// it has in two, how many the buffer has in two, and its bytes; the lowest byte of a number comes first. A line is the number that
// the call returned and all bytes of the buffer that it was lent to write to.
#![tactic(auto)]

use number::Refusal;

// A list has fewer cards than this.
const MANY: u32 = 1000000;

// What stands before the bytes of a card.
#[derive(Clone, Copy)]
struct Head {
    narrows: bool,
    length: usize,
    room: usize,
}

// The head of the next card; none where the list has ended.
fn next_head() -> Option<Head> {
    let mut bytes = [0u8; 5];
    if io::read_full(0, &mut bytes) < 5 {
        return None;
    }
    Some(Head {
        narrows: fields::byte_at(&bytes, 0) == 1,
        length: fields::number_at(&bytes, 1, 2) as usize,
        room: fields::number_at(&bytes, 3, 2) as usize,
    })
}

// What a buffer holds before a call.
fn put_poison(out: &mut [u8]) {
    for (i, byte) in out.iter_mut().enumerate() {
        *byte = 160 + (i % 90) as u8;
    }
}

// A card converted as its head asks.
fn convert(narrows: bool, card: &[u8], out: &mut [u8]) -> Result<(), Refusal> {
    if narrows {
        result_card::narrow_result_card(card, out)
    } else {
        result_card::widen_result_card(card, out)
    }
}

// The line of a card, printed.
fn print_line(converted: Result<(), Refusal>, left: &[u8]) {
    io::print_decimal(1, number::number_of(&converted) as u64);
    for byte in left {
        test_io::print_number(*byte as u64);
    }
    io::write_all(1, b"\n");
}

// The next card, read and converted, its line printed; none where the list has ended.
fn next_card(card: &mut [u8], out: &mut [u8]) -> Option<()> {
    let head = next_head()?;
    let card = card.get_mut(..head.length)?;
    let out = out.get_mut(..head.room)?;
    io::read_full(0, card);
    put_poison(out);
    let converted = convert(head.narrows, card, out);
    print_line(converted, out);
    Some(())
}

// Nothing says that the input ends, so the cards are counted to a number that no list has.
fn main() {
    let mut card = [0u8; 256];
    let mut out = [0u8; 256];
    for _ in 0..MANY {
        if next_card(&mut card, &mut out).is_none() {
            return;
        }
    }
}
