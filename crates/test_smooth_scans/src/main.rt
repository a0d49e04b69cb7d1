// Reads scans and prints what each is smoothed to. A scan is 0 for a second buffer or 1 for itself in one byte, its window in four,
// how many heights it has in two, how many the second buffer has in two, and its heights in two each; the lowest byte comes first.
// A line is the number that the call returned and all heights of the buffer that it was lent to write to.
#![tactic(auto)]

use number::Refusal;

// A list has fewer scans than this.
const MANY: u32 = 1000000;

// What stands before the heights of a scan.
#[derive(Clone, Copy)]
struct Head {
    over_itself: bool,
    window: u32,
    length: usize,
    room: usize,
}

// 4,096 heights, which is more than a scan of the list has.
fn heights() -> [u16; 4096] {
    [0; 4096]
}

// The head of the next scan; none where the list has ended.
fn next_head() -> Option<Head> {
    let mut bytes = [0u8; 9];
    if io::read_full(0, &mut bytes) < 9 {
        return None;
    }
    Some(Head {
        over_itself: fields::byte_at(&bytes, 0) == 1,
        window: fields::number_at(&bytes, 1, 4) as u32,
        length: fields::number_at(&bytes, 5, 2) as usize,
        room: fields::number_at(&bytes, 7, 2) as usize,
    })
}

// Reads the heights of a scan.
fn read_heights(scan: &mut [u16]) {
    for height in scan.iter_mut() {
        let mut bytes = [0u8; 2];
        io::read_full(0, &mut bytes);
        *height = u16::from_le_bytes(bytes);
    }
}

// What a second buffer holds before a call.
fn put_poison(out: &mut [u16]) {
    for (i, height) in out.iter_mut().enumerate() {
        *height = 42240 + (i % 256) as u16;
    }
}

// The line of a scan, printed.
fn print_line(smoothed: Result<(), Refusal>, left: &[u16]) {
    io::print_decimal(1, number::number_of(&smoothed) as u64);
    for height in left {
        test_io::print_number(*height as u64);
    }
    io::write_all(1, b"\n");
}

// Reads the heights of a scan, smooths it as its head asks, and prints its line.
fn run(head: Head, scan: &mut [u16], out: &mut [u16]) {
    read_heights(scan);
    put_poison(out);
    if head.over_itself {
        let smoothed = smooth::smooth_over(scan, head.window);
        print_line(smoothed, scan);
    } else {
        let smoothed = smooth::smooth_to(scan, head.window, out);
        print_line(smoothed, out);
    }
}

// The next scan; none where the list has ended.
fn next_scan(scan: &mut [u16], out: &mut [u16]) -> Option<()> {
    let head = next_head()?;
    run(
        head,
        scan.get_mut(..head.length)?,
        out.get_mut(..head.room)?,
    );
    Some(())
}

// Nothing says that the input ends, so the scans are counted to a number that no list has.
fn main() {
    let mut scan = heights();
    let mut out = heights();
    for _ in 0..MANY {
        if next_scan(&mut scan, &mut out).is_none() {
            return;
        }
    }
}
