// `fit` for programs in C: tools/judge holds an edge's fit against the Rust's, and bench/fit times it.
#![tactic(auto)]

ghost use Rattle.std.specs.Prelude.{◌≡◌};
ghost use Rattle.number.specs.Numbers.{number_of};
ghost use Rattle.c_buffers.specs.Buffers.{with_line};
ghost use Rattle.c_answers.specs.Answers.{with_stat};
ghost use Rattle.fit_c.specs.Edge.{edge_of, line_written, written};

use consts::MAX_EDGE_POINTS;
use fit::{EdgeFit, EdgePoints};

// `EdgePoints::fit_edge` for C, under the default settings: three lists, as C lends them. The line goes to one buffer, and
// probed, fit, dropped and valid to another.
#[unsafe(no_mangle)]
pub extern "C" fn fit_edge(
    xs: &[f64],
    ys: &[f64],
    weights: &[f64],
    probed: u32,
    module_px: f64,
    line: &mut [f64],
    counts: &mut [u32],
) -> u32
    ensures value { result ≡ number_of (edge_of xs.now ys.now weights.now probed module_px) }
    ensures line_after { line.new
        ≡ with_line (line_written (edge_of xs.now ys.now weights.now probed module_px)) line.old }
    ensures counts_after { counts.new
        ≡ with_stat 0 (written (edge_of xs.now ys.now weights.now probed module_px)).stat counts.old }
{
    let mut all_xs = [0.0; MAX_EDGE_POINTS];
    let mut all_ys = [0.0; MAX_EDGE_POINTS];
    let mut all_weights = [0.0; MAX_EDGE_POINTS];
    let mut residuals = [0.0; MAX_EDGE_POINTS];
    let mut points = EdgePoints::none(&mut all_xs, &mut all_ys, &mut all_weights, &mut residuals);
    points.set(xs, ys, weights);
    let returned = points.fit_edge(consts::defaults(), probed, module_px);
    let fit = returned.unwrap_or(EdgeFit {
        line: None,
        stat: edges::no_stat(),
    });
    c_buffers::put_line(line, fit.line.unwrap_or(c_buffers::ZERO_LINE));
    c_answers::put_stat(counts, 0, fit.stat);
    number::number_of(&returned)
}
