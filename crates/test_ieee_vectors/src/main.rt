// Reads bit patterns of `f64`s, 16 hexadecimal digits a line, and prints what `ieee` makes of each.
// A line is: the pattern; the bits of the value itself, its root, floor, ceiling and magnitude, and
// of the larger of it and the value of the line before; whether it is finite; its whole part.
#![tactic(auto)]

use test_io::{print_hex, print_number};

// The value of a digit in small letters. The list has no other character; others are read by their distance too.
fn digit(c: u8) -> u64 {
    let value = match c {
        b'a'..=255 => c - b'a' + 10,
        b'0'..=96 => c - b'0',
        _ => 0,
    };
    u64::from(value)
}

// The number that digits say.
fn number(digits: &[u8]) -> u64 {
    digits.iter().fold(0, |n: u64, c| (n << 4) | digit(*c))
}

// A value's bit pattern, printed.
fn print_bits(x: f64) {
    print_hex(ieee::bits_of(x));
}

// What each function makes of a value, printed on one line.
fn print_answers(before: f64, b: u64) {
    let x = ieee::from_bits(b);
    io::print_hex(1, b, 16);
    print_bits(x);
    print_bits(ieee_root::sqrt(x));
    print_bits(ieee_whole::floor(x));
    print_bits(ieee_whole::ceil(x));
    print_bits(ieee::abs(x));
    print_bits(ieee::max(before, x));
    print_number(u64::from(ieee::is_finite(x)));
    print_number(ieee_whole::whole_part(x) as u64);
    io::write_all(1, b"\n");
}

// The pattern of the next line; none where the list has ended.
fn next_pattern() -> Option<u64> {
    let mut line = [0u8; 17];
    if io::read_full(0, &mut line) < 17 {
        return None;
    }
    Some(number(&line[..16]))
}

// Nothing says that the input ends, so the lines are counted to a number that no list has.
fn main() {
    let mut before: f64 = 0.0;
    for _line in 0..u64::MAX {
        let Some(b) = next_pattern() else { break };
        print_answers(before, b);
        before = ieee::from_bits(b);
    }
}
