// Works out the table of the arctangent in whole numbers and prints it, entry 0 first, one decimal
// number a line. Entry i is the arctangent of i / 256 in units of 2 to the -52, rounded to the
// nearest. From one entry to the next the angle grows by the arctangent of 256 / d, where d is
// 65,536 + i (i + 1): five terms of its series, with 46 binary digits behind the point. Cut digits
// and left out terms come to less than 2 to the -30 units for a whole entry, while no entry lies
// nearer than 0.0001 units to the middle of two whole numbers, so that each is rounded as the true
// one.
#![tactic(auto)]

// How many binary digits of an angle stand behind the point.
const DIGITS: u32 = 46;

// The angle from i / 256 to (i + 1) / 256, by the powers 1, 3, 5, 7 and 9 of its tangent 256 / d.
// Every second term is subtracted.
fn angle_from(i: u16) -> u128 {
    let i = u128::from(i);
    let d = 65536 + i * (i + 1);
    let mut power = (1 << (52 + 8 + DIGITS)) / d;
    let mut sum = power;
    for k in 1..5u32 {
        power = power.wrapping_mul(65536) / (d * d);
        let term = power / u128::from(2 * k + 1);
        sum = if k % 2 == 1 {
            sum.wrapping_sub(term)
        } else {
            sum.wrapping_add(term)
        };
    }
    sum
}

// The nearest whole number, printed on a line of its own.
fn print_rounded(angle: u128) {
    let rounded = angle.wrapping_add(1 << (DIGITS - 1)) >> DIGITS;
    io::print_decimal(1, u64::try_from(rounded).unwrap_or(0));
    io::write_all(1, b"\n");
}

// Prints each entry, and goes on by the angle to the next.
fn main() {
    let mut angle: u128 = 0;
    for i in 0..257 {
        print_rounded(angle);
        angle = angle.wrapping_add(angle_from(i));
    }
}
