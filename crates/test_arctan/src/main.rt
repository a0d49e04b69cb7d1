// Prints the arctangents of i / 1024 and of 1024 / i, as bit patterns, for each i from 0 to 1024,
// and then of the values that are no ratio: a negative one, -0, the negative infinity and a NaN. At
// every fourth i the first of the two is an entry of the table.
#![tactic(auto)]

// The bit pattern of an arctangent, printed behind a space.
fn print_arctan(r: f64) {
    io::write_all(1, b" ");
    io::print_hex(1, ieee::bits_of(arctan::arctan(r)), 16);
}

// The line of a ratio and its inverse.
fn print_ratio(i: u32) {
    let r = i as f64 / 1024.0;
    io::print_decimal(1, i as u64);
    print_arctan(r);
    print_arctan(1.0 / r);
    io::write_all(1, b"\n");
}

// The line of the values that are no ratio.
fn print_others() {
    io::write_all(1, b"others");
    print_arctan(-0.75);
    print_arctan(-0.0);
    print_arctan(-1.0 / 0.0);
    print_arctan(0.0 / 0.0);
    io::write_all(1, b"\n");
}

// Each ratio, then the rest.
fn main() {
    for i in 0..1025 {
        print_ratio(i);
    }
    print_others();
}
