// Smoothing of a scan of heights: the mean over a window, over the scan itself or to a second buffer.
#![tactic(auto)]

ghost use Rattle.std.specs.Prelude.{◌≡◌, ◌+◌, ◌-◌, ◌*◌, ◌/◌, ◌%◌, ◌^◌, ◌<◌, ◌≤◌, min, take, length, get_or, Ok, Err, MatchResult};
ghost use Rattle.std.specs.List.{sum};
ghost use Rattle.smooth.specs.Smooth.{smoothed, over_answer, smoothed_over, to_answer, smoothed_to};
ghost use Rattle.smooth.specs.Walks.{Walked, Walks};

use number::Refusal;

// How many heights are kept that were written over: a power of two above the longest reach.
const KEPT: usize = 16;

// For each count of records 2 to the 32 over it, rounded down, and one more: a sum is multiplied by
// it, since a division is slow. No window has 0 records.
const INVERSES: [u64; 32] = [
    1, 4294967297, 2147483649, 1431655766, 1073741825, 858993460, 715827883, 613566757, 536870913,
    477218589, 429496730, 390451573, 357913942, 330382100, 306783379, 286331154, 268435457,
    252645136, 238609295, 226050911, 214748365, 204522253, 195225787, 186737709, 178956971,
    171798692, 165191050, 159072863, 153391690, 148102321, 143165577, 138547333,
];

// The height at i of a scan, and 0 behind its end.
fn height_at(scan: &[u16], i: usize) -> u32
    ensures { (result ≡ get_or scan.now i 0) × (result ≤ 65535) }
{
    scan.get(i).copied().unwrap_or(0) as u32
}

// The inverse of a count, in units of 2 to the -32, by the table.
fn inverse_of(count: usize) -> u64
    requires { count ≤ 31 }
    ensures { result ≡ 4294967296 / count + 1 }
{
    INVERSES[count]
}

// The mean of so many heights, from their sum.
fn mean(total: u32, count: usize) -> u16
    requires { (0 < count) × (count ≤ 31) × (total ≤ 65535 * count) }
    ensures { result ≡ total / count }
{
    (total as u64 * inverse_of(count) / 4294967296) as u16
}

// A window: how many records it reaches to either side.
#[derive(Clone, Copy)]
struct Window {
    reach: usize,
    ghost few: { reach ≤ 15 },
}

// What a walk over a scan carries along: the sum of the heights of a window, and the heights that were
// written over last, each at its place's remainder, until the window has left them. In the place of
// those before the first one stands 0.
#[derive(Clone, Copy)]
struct Walk {
    total: u32,
    kept: [u16; KEPT],
}

impl Window {
    // The window of so many records: an odd number from 3 to 31.
    fn new(records: u32) -> Result<Window, Refusal>
        ensures { MatchResult result (λ w. (over_answer records ≡ Ok tt) × (w.reach ≡ records / 2)) (λ e. over_answer records ≡ Err e) }
    {
        if records >= 3 && records <= 31 && records % 2 == 1 {
            Ok(Window {
                reach: (records / 2) as usize,
            })
        } else {
            Err(Refusal::Window)
        }
    }

    // The sum of the heights ahead of the first record, as far as the window reaches.
    fn first_sum(self, scan: &[u16]) -> u32
        ensures { result ≡ sum (take self.reach scan.now) }
    {
        let mut total = 0;
        for i in 0..self.reach {
            total += height_at(scan, i);
        }
        total
    }

    // How many of n records the window around i has.
    fn count_at(self, i: usize, n: usize) -> usize
        requires { (i < n) × (n < 2 ^ 63) }
        ensures { result ≡ min (i + self.reach + 1) n - (i - self.reach) }
    {
        (i + self.reach + 1).min(n) - i.saturating_sub(self.reach)
    }

    // The height that the window of record i loses before the next one.
    fn leaving(self, kept: &[u16; KEPT], i: usize) -> u32
        requires { i < 2 ^ 63 }
        ensures { result ≡ get_or kept.now ((i + 16 - self.reach) % 16) 0 }
    {
        kept[(i + KEPT - self.reach) % KEPT] as u32
    }

    // Smooths the records from one place to another, whose windows may be cut short: the sum gains
    // a height and loses one from record to record.
    fn smooth_cut(self, scan: &mut [u16], walk: Walk, from: usize, to: usize) -> Walk
        requires { (Walked self.reach from scan.old walk) × (from ≤ to) × (to ≤ length scan.old) }
        ensures { Walks self.reach from scan.old walk to scan.new result }
    {
        let n = scan.len();
        let mut total = walk.total;
        let mut kept = walk.kept;
        for i in from..to {
            total += height_at(scan, i + self.reach);
            kept[i % KEPT] = scan[i];
            scan[i] = mean(total, self.count_at(i, n));
            total -= self.leaving(&kept, i);
        }
        Walk { total, kept }
    }

    // Smooths the records from one place to another, whose windows are all whole: the last height of
    // each is there, and one count is that of all.
    fn smooth_whole(self, scan: &mut [u16], walk: Walk, from: usize, to: usize) -> Walk
        requires { (Walked self.reach from scan.old walk) × (from ≤ to) × (from < to → (self.reach ≤ from) × (to + self.reach ≤ length scan.old)) }
        ensures { Walks self.reach from scan.old walk to scan.new result }
    {
        let mut total = walk.total;
        let mut kept = walk.kept;
        for i in from..to {
            total += scan[i + self.reach] as u32;
            kept[i % KEPT] = scan[i];
            scan[i] = mean(total, 2 * self.reach + 1);
            total -= self.leaving(&kept, i);
        }
        Walk { total, kept }
    }

    // Smooths every record of a scan in its place: those at the front whose windows are cut short,
    // those whose windows are whole, and those at the end.
    fn smooth(self, scan: &mut [u16])
        ensures { scan.new ≡ smoothed self.reach scan.old }
    {
        let n = scan.len();
        let first = self.reach.min(n);
        let last = first.max(n.saturating_sub(self.reach));
        let walk = Walk {
            total: self.first_sum(scan),
            kept: [0; KEPT],
        };
        let walk = self.smooth_cut(scan, walk, 0, first);
        let walk = self.smooth_whole(scan, walk, first, last);
        self.smooth_cut(scan, walk, last, n);
    }
}

// Smooths a scan over itself; a wrong window leaves it as it was.
pub fn smooth_over(scan: &mut [u16], window: u32) -> Result<(), Refusal>
    ensures answer { result ≡ over_answer window }
    ensures left { scan.new ≡ smoothed_over window scan.old }
{
    Window::new(window)?.smooth(scan);
    Ok(())
}

// Copies a scan over a buffer of its length, height by height: the archive for C is to need no `memmove`.
fn copy(scan: &[u16], out: &mut [u16])
    requires { length out.old ≡ length scan.now }
    ensures { out.new ≡ scan.now }
{
    for i in 0..scan.len() {
        out[i] = scan[i];
    }
}

// Smooths a scan to the front of a second buffer, whose records behind the scan's stay; a wrong
// window, then too little room, leave all of it as it was.
pub fn smooth_to(scan: &[u16], window: u32, out: &mut [u16]) -> Result<(), Refusal>
    ensures answer { result ≡ to_answer window scan.now out.old }
    ensures left { out.new ≡ smoothed_to window scan.now out.old }
{
    let window = Window::new(window)?;
    if out.len() < scan.len() {
        return Err(Refusal::Room);
    }
    let front = &mut out[..scan.len()];
    copy(scan, front);
    window.smooth(front);
    Ok(())
}
