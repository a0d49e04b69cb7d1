// refine.rs, the points of an edge: as they are found, and then fitted.
ghost use Rattle.std.specs.Prelude.{◌≡◌, ◌≤◌, [], length, take};
ghost use Rattle.consts.specs.Consts.{max_edge_points};
ghost use Rattle.fit.specs.Fit.{fit_edge, points_of, with_point};

use crate::{EdgeFit, Fitting};
use consts::{MAX_EDGE_POINTS, Settings};
use number::Refusal;
use pixel::EdgePoint;
use std::marker::Model;

// The points that an edge's probes find, in room for the most that there can be. A run makes the room once, and each of
// its edges is lent it. Three lists, as the line's fit is lent them, and room for the distances from a line.
#[derive(Drop)]
pub struct EdgePoints<'a> {
    xs: &'a mut [f64],
    ys: &'a mut [f64],
    weights: &'a mut [f64],
    residuals: &'a mut [f64],
    len: usize,
}

impl<'a> Model for EdgePoints<'a> {
    ghost use Rattle.std.specs.Prelude.{List, take};
    ghost use Rattle.pixel.specs.declared.EdgePoint.{EdgePoint as Point};

    ghost Value = { List Point };

    ghost use Rattle.fit.specs.Fit.{points_of};
    ghost use Rattle.fit.specs.Lent.{HasRoom};

    ghost view = { λ p. points_of (take p.len p.xs.now) (take p.len p.ys.now) (take p.len p.weights.now) };

    ghost invariant = { λ p. HasRoom p.len p.xs.now p.ys.now p.weights.now p.residuals.now };
}

// Copies numbers to the front of a list.
fn copy_to_front(from: &[f64], to: &mut [f64])
    requires { length from.now ≤ length to.old }
    ensures { take (length from.now) to.new ≡ from.now }
{
    to[..from.len()].copy_from_slice(from);
}

impl<'a> EdgePoints<'a> {
    // No point yet, in the room that is lent.
    pub fn none(
        xs: &'a mut [f64; MAX_EDGE_POINTS],
        ys: &'a mut [f64; MAX_EDGE_POINTS],
        weights: &'a mut [f64; MAX_EDGE_POINTS],
        residuals: &'a mut [f64; MAX_EDGE_POINTS],
    ) -> EdgePoints<'a>
        ensures { result ≡ [] }
    {
        EdgePoints {
            xs,
            ys,
            weights,
            residuals,
            len: 0,
        }
    }

    // As many points of three lists as there is room for, in the place of those that there are.
    pub fn set(&mut self, xs: &[f64], ys: &[f64], weights: &[f64])
        ensures { self.new ≡ take max_edge_points (points_of xs.now ys.now weights.now) }
    {
        let n = MAX_EDGE_POINTS
            .min(xs.len())
            .min(ys.len())
            .min(weights.len());
        copy_to_front(&xs[..n], self.xs);
        copy_to_front(&ys[..n], self.ys);
        copy_to_front(&weights[..n], self.weights);
        self.len = n;
    }

    // One more point, where there is room.
    pub fn push(&mut self, point: EdgePoint)
        ensures { self.new ≡ with_point self.old point }
    {
        let n = self.len;
        if n < MAX_EDGE_POINTS {
            self.xs[n] = point.pos.0;
            self.ys[n] = point.pos.1;
            self.weights[n] = point.weight;
            self.len = n + 1;
        }
    }

    // Takes the points away.
    pub fn clear(&mut self)
        ensures { self.new ≡ [] }
    {
        self.len = 0;
    }

    // The line through the points, which are taken away: what is left of them after the first of two fits is written over
    // them. A call of its own, since what it moves would lie on the caller's stack.
    #[inline(never)]
    pub fn fit_edge(
        &mut self,
        settings: Settings,
        probed: u32,
        module_px: f64,
    ) -> Result<EdgeFit, Refusal>
        ensures answer { result ≡ fit_edge settings probed module_px self.old }
        ensures left { self.new ≡ [] }
    {
        let n = self.len;
        self.len = 0;
        let fitting = Fitting {
            settings,
            probed,
            module_px,
        };
        fitting.fit_points(
            &mut self.xs[..n],
            &mut self.ys[..n],
            &mut self.weights[..n],
            &mut self.residuals[..n],
        )
    }
}
