// Reads cards, each behind its length in three bytes, and prints what each comes to.
#![tactic(auto)]

use test_io::CardTest;

// The answer of each card.
struct Answers;

impl CardTest for Answers {
    // A card's answer, printed: a text of fixed size, as there is no heap.
    fn run(card: &[u8]) {
        let mut text = [0u8; 1024];
        let end = report::answer_lines(cards::run_job(card), &mut text);
        io::write_all(1, &text[..end]);
    }
}

fn main() {
    test_io::run_cards::<Answers>();
}
