// refine.rs, the selection of probes: which places of an edge are probed.
#![tactic(auto)]

ghost use Rattle.std.specs.Prelude.{◌≡◌, ◌+◌, ◌-◌, ◌*◌, ◌≤◌, ◌<◌, [], drop, IfSome, IfNone};
ghost use Rattle.std.specs.Iterator.{YieldsFirst, item_count};
ghost use Rattle.consts.specs.Consts.{max_edge_points};
ghost use Rattle.grid.specs.Grids.{grid_of};
ghost use Rattle.probes.specs.Layouts.{dark_at, start_of, stride_of};
ghost use Rattle.probes.specs.Probes.{near_end, probes_of};
ghost use Rattle.probes.specs.Places.{fraction_at, probe_at, is_candidate, onward, Counted, Thins, Sought};

use consts::{MAX_EDGE_POINTS, Settings};
use grid::LabelEdge;
use std::marker::Model;

// A probe of an edge: how far along it, from 0 to 1, and whether the module behind it is light.
#[derive(Clone, Copy, Default)]
pub struct Probe {
    pub t: f64,
    pub inward_differs: bool,
}

// An edge of a label: its modules, and the settings that its probes go by.
// Found once for all its modules: where the first one and the one behind that lie, and how far apart the next ones.
#[derive(Clone, Copy)]
struct Edge<'a> {
    settings: Settings,
    modules: &'a [u8],
    dim: u32,
    edge: LabelEdge,
    border: usize,
    inward: usize,
    step: usize,
    ghost border_lies: { border ≡ start_of dim edge 0 },
    ghost inward_lies: { inward ≡ start_of dim edge 1 },
    ghost step_lies: { step ≡ stride_of dim edge },
}

// ---- modules: where those of an edge lie

// Whether module m of those that lie a step apart is dark; past the end of the modules none is.
fn dark(modules: &[u8], first: usize, step: usize, m: usize) -> bool
    requires { first + m * step < 18446744073709551616 }
    ensures { result ≡ dark_at modules.now first step m }
{
    modules.get(first + m * step).copied().unwrap_or(0) == 1
}

// Where the first module lies, so many modules behind an edge.
fn start(dim: u32, edge: LabelEdge, depth: u32) -> usize
    ensures { result ≡ start_of dim edge depth }
{
    let far = dim.saturating_sub(1).saturating_sub(depth) as usize;
    match edge {
        LabelEdge::Top => depth as usize * dim as usize,
        LabelEdge::Right => far,
        LabelEdge::Bottom => far * dim as usize,
        LabelEdge::Left => depth as usize,
    }
}

// How far apart the next ones lie.
fn stride(dim: u32, edge: LabelEdge) -> usize
    ensures { result ≡ stride_of dim edge }
{
    match edge {
        LabelEdge::Top | LabelEdge::Bottom => 1,
        LabelEdge::Right | LabelEdge::Left => dim as usize,
    }
}

// ---- places: two in each module of an edge, and so fewer than 2^33, for any side

// The fraction of its module at which place j lies.
fn fraction(settings: Settings, j: usize) -> f64
    ensures { result ≡ fraction_at settings j }
{
    if j % 2 == 0 {
        settings.probe_fraction_first
    } else {
        settings.probe_fraction_second
    }
}

// Whether a place lies in the margin at either end.
fn near_end(settings: Settings, dim: u32, at: f64) -> bool
    ensures { result ≡ near_end settings dim at }
{
    at < settings.edge_margin_modules || at > dim as f64 - settings.edge_margin_modules
}

impl<'a> Edge<'a> {
    // An edge of a grid of this side.
    fn new(settings: Settings, modules: &'a [u8], dim: u32, edge: LabelEdge) -> Edge<'a>
        ensures settings { result.settings ≡ settings }
        ensures modules { result.modules.now ≡ modules.now }
        ensures dim { result.dim ≡ dim }
        ensures edge { result.edge ≡ edge }
    {
        Edge {
            settings,
            modules,
            dim,
            edge,
            border: start(dim, edge, 0),
            inward: start(dim, edge, 1),
            step: stride(dim, edge),
        }
    }

    // Whether place j is a candidate: in a dark module, in the middle of the edge.
    fn is_candidate(&self, j: usize) -> bool
        requires { j < 8589934592 }
        ensures { result ≡ is_candidate self.now.settings (grid_of self.now.dim self.now.modules.now)
            self.now.edge j }
    {
        dark(self.modules, self.border, self.step, j / 2)
            && !near_end(
                self.settings,
                self.dim,
                (j / 2) as u32 as f64 + fraction(self.settings, j),
            )
    }

    // The probe at place j.
    fn probe_at(&self, j: usize) -> Probe
        requires { j < 8589934592 }
        ensures { result ≡ probe_at self.now.settings (grid_of self.now.dim self.now.modules.now)
            self.now.edge j }
    {
        Probe {
            t: ((j / 2) as u32 as f64 + fraction(self.settings, j)) / self.dim as f64,
            inward_differs: !dark(self.modules, self.inward, self.step, j / 2),
        }
    }

    // ---- the two passes

    // How many candidates there are. Module by module, since the two places of one share its darkness.
    fn count_candidates(&self) -> usize
        ensures { Counted self.now.settings (grid_of self.now.dim self.now.modules.now) self.now.edge
            result }
    {
        let mut n: usize = 0;
        for m in 0..self.dim as usize {
            let first = self.is_candidate(2 * m);
            let second = self.is_candidate(2 * m + 1);
            n += usize::from(first) + usize::from(second);
        }
        n
    }

    // From a place on, the place of the candidate behind so many others, if there is one.
    fn next_candidate(&self, from: usize, skip: usize) -> Option<usize>
        requires { from ≤ 2 * self.now.dim }
        ensures found { IfSome result (Sought self.now.settings
            (grid_of self.now.dim self.now.modules.now) self.now.edge from skip) }
        ensures none { IfNone result (drop skip (onward self.now.settings
            (grid_of self.now.dim self.now.modules.now) self.now.edge from) ≡ []) }
    {
        let mut left = skip;
        for j in from..2 * self.dim as usize {
            if self.is_candidate(j) {
                if left == 0 {
                    return Some(j);
                }
                left -= 1;
            }
        }
        None
    }
}

// Every how many-th of n candidates is a probe, where there is room for `most`.
fn decimation(n: usize, most: usize) -> usize
    requires { (n ≤ 8589934592) × (most ≤ max_edge_points) }
    ensures { Thins n most result }
{
    if n <= most || most == 0 {
        1
    } else {
        (n + (most - 1)) / most
    }
}

// ---- the probes

// The probes of an edge that are still to come: of its candidates from place `at` on every k-th, behind `skip` that are
// passed over, and `left` at most. They are sought as they are asked for, so that no list of them is kept.
#[derive(Clone, Drop)]
pub struct Probes<'a> {
    side: Edge<'a>,
    k: usize,
    at: usize,
    skip: usize,
    left: usize,
}

impl<'a> Model for Probes<'a> {
    ghost use Rattle.std.specs.Prelude.{List, ◌<◌, ◌≤◌, ◌*◌};
    ghost use Rattle.probes.specs.declared.Probe.{Probe as Item};

    ghost Value = { List Item };

    ghost use Rattle.grid.specs.Grids.{grid_of};
    ghost use Rattle.probes.specs.Places.{coming};

    ghost view = { λ p. coming p.side.settings (grid_of p.side.dim p.side.modules.now) p.side.edge p.k p.at p.skip p.left };

    ghost invariant = { λ p. (0 < p.k) × (p.at ≤ 2 * p.side.dim) };
}

impl<'a> Iterator for Probes<'a> {
    type Item = Probe;

    ghost next_gives = { YieldsFirst (λ s. s) };

    ghost remaining = { item_count (λ s. s) };

    fn next(&mut self) -> Option<Probe> {
        if self.left == 0 {
            return None;
        }
        let Some(at) = self.side.next_candidate(self.at, self.skip) else {
            self.left = 0;
            return None;
        };
        self.at = at + 1;
        self.skip = self.k - 1;
        self.left -= 1;
        Some(self.side.probe_at(at))
    }
}

// The probes of the edge of a number: its candidates, decimated evenly to the limit. A number, since callers may pass
// any: past 2 it is the left one.
pub fn probes_of(settings: Settings, modules: &[u8], dim: u32, edge: u32) -> Probes<'_>
    ensures { result ≡ probes_of settings (grid_of dim modules.now) edge }
{
    let most = (settings.max_points_per_edge as usize).min(MAX_EDGE_POINTS);
    let side = Edge::new(settings, modules, dim, LabelEdge::from(edge));
    let n = side.count_candidates();
    Probes {
        side,
        k: decimation(n, most),
        at: 0,
        skip: 0,
        left: most,
    }
}
