// The calls for C and Rust about lines, each over the lists and buffers that it is lent: `export` hands every one on as it is.
// The parameters are those of the C interface.
#![tactic(auto)]

ghost use Rattle.std.specs.Prelude.{◌≡◌};
ghost use Rattle.std.specs.Result.{result_unwrap_or};
ghost use Rattle.number.specs.Numbers.{number_of};
ghost use Rattle.line.specs.Line.{crossing, cross_answer};
ghost use Rattle.line_fit.specs.LineFit.{fit_line};
ghost use Rattle.c_lists.specs.Lent.{line_of};
ghost use Rattle.c_buffers.specs.Buffers.{with_place, with_line, zero_place, zero_line};

// The line through weighted points, or the number of what is wrong with them: 13 to 16, 10, 11.
pub fn fit_line_tls_weighted(xs: &[f64], ys: &[f64], weights: &[f64], line: &mut [f64]) -> u32
    ensures value { result ≡ number_of (fit_line xs.now ys.now weights.now) }
    ensures line_after { line.new
        ≡ with_line (result_unwrap_or (fit_line xs.now ys.now weights.now) zero_line) line.old }
{
    let fitted = line_fit::fit_line_tls_weighted(xs, ys, weights);
    c_buffers::put_line(line, fitted.unwrap_or(c_buffers::ZERO_LINE));
    number::number_of(&fitted)
}

// Where two lines cross, as a place on the first, or 18. Of the shape of all calls that may refuse: what is lent is read,
// and the value or zeros are written. Each has types of its own, so that they would share but the number.
pub fn intersect_lines(a: &[f64], b: &[f64], place: &mut [f64]) -> u32
    ensures value { result ≡ number_of (cross_answer (crossing (line_of a.now) (line_of b.now))) }
    ensures place_after { place.new
        ≡ with_place (result_unwrap_or (cross_answer (crossing (line_of a.now) (line_of b.now))) zero_place) place.old }
{
    let first = c_lists::line_of(a);
    let second = c_lists::line_of(b);
    let crossed = line::intersect_lines(first, second);
    c_buffers::put_place(place, crossed.unwrap_or(c_buffers::ZERO_PLACE));
    number::number_of(&crossed)
}
