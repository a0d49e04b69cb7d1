// What the test programs share: the list of cards that they read, and numbers as they print them. What is printed no clause
// says, as `io` promises nothing of it: the gate compares it with the stored lists.
#![tactic(auto)]

ghost use Rattle.std.specs.Prelude.{◌≤◌, length, IfSome};

// A list has fewer cards than this.
const MANY: u64 = 1000000;

// Reads the next card, behind its length in three bytes, to the front of `space`, and answers its length; none where the
// list has ended.
fn next_card(space: &mut [u8]) -> Option<usize>
    ensures { IfSome result (λ n. n ≤ length space.new) }
{
    let mut head = [0u8; 3];
    if io::read_full(0, &mut head) < 3 {
        return None;
    }
    let n = fields::number_at(&head, 0, 3) as usize;
    let card = space.get_mut(..n)?;
    io::read_full(0, card);
    Some(n)
}

// What a test program does with a card. A trait, since a closure that is called would have to be required to be callable.
pub trait CardTest {
    // Runs a card and prints what it comes to.
    fn run(card: &[u8]);
}

// Reads the list of cards and runs each, behind a line with its index. Nothing says that the input ends, so the cards are
// counted to a number that no list has.
pub fn run_cards<T: CardTest>() {
    let mut buffer = io::large_buffer();
    for index in 0..MANY {
        let Some(n) = next_card(&mut buffer) else {
            return;
        };
        io::write_all(1, b"card ");
        io::print_decimal(1, index);
        io::write_all(1, b"\n");
        T::run(&buffer[..n]);
    }
}

// A number behind a space, printed.
pub fn print_number(n: u64) {
    io::write_all(1, b" ");
    io::print_decimal(1, n);
}

// A number behind a space in 16 hexadecimal digits, printed.
pub fn print_hex(n: u64) {
    io::write_all(1, b" ");
    io::print_hex(1, n, 16);
}
