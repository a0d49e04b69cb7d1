// Reads a job card on standard input, refines the label's corners, and prints the answer's lines.
#![tactic(auto)]

ghost use Rattle.std.specs.Prelude.{IfOk};
ghost use Rattle.io.specs.Counts.{IsPrefixLen};

use std::io::{Read, Stdin};

// Reads until the input ends or the buffer is full, and answers how many bytes there are. A `while`, since each read says
// how far it came.
fn read_input(stdin: &mut Stdin, buffer: &mut [u8]) -> std::io::Result<usize>
    ensures { IfOk result (λ n. IsPrefixLen n buffer.new) }
{
    let mut n: usize = 0;
    while n < buffer.len() {
        let more = stdin.read(&mut buffer[n..])?;
        if more == 0 {
            break;
        }
        n += more;
    }
    Ok(n)
}

// The buffer holds one byte more than the longest card, so that an over-long one is seen; the text is one of fixed size, as
// there is no heap. What fails is said on standard error, and after a read that failed nothing is printed; the exit status is
// 0 in each case.
fn main(rt: HostRuntime) {
    let mut stdin = rt.stdin();
    let mut buffer = io::large_buffer();
    let Ok(n) = read_input(&mut stdin, &mut buffer) else {
        let _ = eprintln!(rt; "label: the job card could not be read");
        return;
    };
    let mut text = [0u8; 1024];
    let end = report::answer_lines(cards::run_job(&buffer[..n]), &mut text);
    if rt.write_all(&text[..end]).is_err() {
        let _ = eprintln!(rt; "label: the answer could not be written");
    }
}
