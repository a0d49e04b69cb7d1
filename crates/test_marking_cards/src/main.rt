// Reads cards, each behind its length in three bytes, runs each with marking, and prints what it comes to, what it marked, and
// whether runs over other photographs end as they must.
#![tactic(auto)]

mod bytes; // bytes.rt: bytes by their places
mod others; // others.rt: cards over other photographs

use bytes::{count_ones, digest, front, is_poison, poison_all};
use corners::Answer;
use number::Refusal;
use others::{HEAD, over_copy, over_others, shape_of};
use test_io::{CardTest, print_hex, print_number};

// The poison of runs that are asked what they left of it.
const POISON: u8 = 17;

// What a second run has in common with the first.
#[derive(Clone, Copy)]
struct Same {
    answer: bool,
    sheet: bool,
    copy: bool,
}

// A truth value as 0 or 1, printed.
fn print_bit(b: bool) {
    io::write_all(1, if b { b" 1" } else { b" 0" });
}

// What two runs have in common, printed.
fn print_same(s: Same) {
    print_bit(s.answer);
    print_bit(s.sheet);
    print_bit(s.copy);
    io::write_all(1, b"\n");
}

// Whether all bytes from n on are still poison, of sheet and copy.
fn print_left(sheet: &[u8], copy: &[u8], n: usize) {
    print_bit(is_poison(sheet, n, POISON));
    print_bit(is_poison(copy, n, POISON));
    io::write_all(1, b"\n");
}

// The marking run, on buffers that are dirty before. Sheet and copy are two here and below, as the call takes them.
fn run_on_poison(card: &[u8], sheet: &mut [u8], copy: &mut [u8], seed: u8) -> Answer {
    poison_all(sheet, seed);
    poison_all(copy, seed);
    cards::run_job_marking(card, sheet, copy)
}

// Whether anything differs between two runs.
fn differs(s: Same) -> bool {
    !s.sheet || !s.copy
}

// A run on a sheet or a copy that is too short, and whether both are as they were.
fn run_short(card: &[u8], sheet: &mut [u8], copy: &mut [u8]) {
    let answer = run_on_poison(card, sheet, copy, POISON);
    io::write_all(1, b"short");
    print_number(number::number_of(&answer) as u64);
    print_left(sheet, copy, 0);
}

// The sheet one byte too short, then the copy, of n bytes that a run needs.
fn run_both_short(card: &[u8], n: usize) {
    let mut sheet_space = io::large_buffer();
    let mut copy_space = io::large_buffer();
    let sheet: &mut [u8] = &mut sheet_space;
    let copy: &mut [u8] = &mut copy_space;
    if 1 <= n && n <= sheet.len() && n <= copy.len() {
        run_short(card, &mut sheet[..n - 1], &mut copy[..n]);
        run_short(card, &mut sheet[..n], &mut copy[..n - 1]);
    }
}

// Whether a run that ends so writes nothing.
fn writes_nothing(answer: Answer) -> bool {
    match answer {
        Ok(_) => false,
        Err(refusal) => u32::from(refusal) <= u32::from(Refusal::Sheet) || refusal == Refusal::Card,
    }
}

// A run that has ended: its card, what it printed, and its sheet and copy as it left them.
#[derive(Clone, Copy)]
struct Run<'a> {
    card: &'a [u8],
    text: &'a [u8],
    sheet: &'a [u8],
    copy: &'a [u8],
}

impl<'a> Run<'a> {
    // The run with n pixels of its sheet and copy.
    fn cut(self, n: usize) -> Run<'a> {
        Run {
            card: self.card,
            text: self.text,
            sheet: front(self.sheet, n),
            copy: front(self.copy, n),
        }
    }

    // Another card, run on poison of its own, held to what this run printed and left.
    fn again(self, card: &[u8], seed: u8) -> Same {
        let mut sheet_space = io::large_buffer();
        let mut copy_space = io::large_buffer();
        let sheet: &mut [u8] = &mut sheet_space;
        let copy: &mut [u8] = &mut copy_space;
        let mut text = [0u8; 1024];
        let answer = run_on_poison(card, sheet, copy, seed);
        let end = report::answer_lines(answer, &mut text);
        Same {
            answer: self.text == &text[..end],
            sheet: self.sheet == front(sheet, self.sheet.len()),
            copy: self.copy == front(copy, self.copy.len()),
        }
    }

    // Over the blanked copy with one marked pixel changed, sheet or copy must differ.
    fn print_changed(self, other: &mut [u8]) {
        let Some(i) = self.sheet.iter().position(|mark| *mark == 1) else {
            io::write_all(1, b"changed none\n");
            return;
        };
        let end = over_copy(other, self.card, self.copy);
        if let Some(byte) = other.get_mut(HEAD + i) {
            *byte = 255 - *byte;
        }
        let s = self.again(front(other, end), 3);
        io::write_all(1, b"changed");
        print_bit(differs(s));
        io::write_all(1, b"\n");
    }

    // The runs over other photographs.
    fn print_others(self) {
        let mut space = io::large_buffer();
        let other: &mut [u8] = &mut space;
        let copy_end = over_copy(other, self.card, self.copy);
        io::write_all(1, b"copy");
        print_same(self.again(front(other, copy_end), 30));
        let others_end = over_others(other, self.card, self.sheet);
        io::write_all(1, b"others");
        print_same(self.again(front(other, others_end), 211));
        self.print_changed(other);
    }

    // How many pixels are marked, a digest of the sheet and one of the copy.
    fn print_marks(self) {
        io::write_all(1, b"marks");
        print_number(count_ones(self.sheet));
        print_hex(digest(self.sheet));
        print_hex(digest(self.copy));
    }

    // What the run left, and where it wrote, the runs over other photographs.
    fn print(self, answer: Answer) {
        io::write_all(1, self.text);
        if writes_nothing(answer) {
            io::write_all(1, b"nothing");
            print_left(self.sheet, self.copy, 0);
            return;
        }
        let n = shape_of(self.card).area();
        self.cut(n).print_marks();
        print_left(self.sheet, self.copy, n);
        self.cut(n).print_others();
        run_both_short(self.card, n);
    }
}

// One card, run on dirty buffers in every way that is tried. Texts have a fixed size, as there is no heap.
fn run_on_dirty(card: &[u8], sheet: &mut [u8], copy: &mut [u8]) {
    let mut text = [0u8; 1024];
    let answer = run_on_poison(card, sheet, copy, POISON);
    let end = report::answer_lines(answer, &mut text);
    let run = Run {
        card,
        text: &text[..end],
        sheet,
        copy,
    };
    run.print(answer);
}

// What each card marks, and what that shows.
struct Marks;

impl CardTest for Marks {
    // A card, run on buffers of its own.
    fn run(card: &[u8]) {
        let mut sheet = io::large_buffer();
        let mut copy = io::large_buffer();
        run_on_dirty(card, &mut sheet, &mut copy);
    }
}

fn main() {
    test_io::run_cards::<Marks>();
}
