// refine.rs, `localize_edge_point_pass` without its samples: the peak of a profile.
#![tactic(auto)]

ghost use Rattle.std.specs.Prelude.{◌≡◌};
ghost use Rattle.peak.specs.Peak.{
  above_contrast_floor,
  corrected as corrected_at,
  inner_gradients,
  gradient,
  peak as peak_of,
  vertex as vertex_of,
};

use consts::Settings;

// The peak of a profile: its offset in samples, and its weight.
#[derive(Clone, Copy)]
pub struct Peak {
    pub offset: f64,
    pub weight: f64,
}

// The gradients of a profile that a peak can need.
#[derive(Clone, Copy)]
pub struct Gradients {
    pub g1: f64,
    pub g2: f64,
    pub g3: f64,
    pub g4: f64,
    pub g5: f64,
}

// ---- gradients

// The central differences of seven samples.
fn gradients_of(s: [f64; 7]) -> Gradients
    ensures { result ≡ inner_gradients (gradient s) }
{
    Gradients {
        g1: s[2] - s[0],
        g2: s[3] - s[1],
        g3: s[4] - s[2],
        g4: s[5] - s[3],
        g5: s[6] - s[4],
    }
}

// The gradients of a profile, unfolded by stride 2, one module, where the inward neighbour is light. Those
// at both ends are 0, and the last one takes part.
fn corrected(s: [f64; 7], inward_differs: bool) -> Gradients
    ensures { result ≡ inner_gradients (corrected_at inward_differs s) }
{
    let g = gradients_of(s);
    if inward_differs {
        return Gradients {
            g1: 0.0 + g.g1 + g.g3 + g.g5,
            g2: 0.0 + g.g2 + g.g4 + 0.0,
            g3: 0.0 + g.g3 + g.g5,
            g4: 0.0 + g.g4 + 0.0,
            g5: 0.0 + g.g5,
        };
    }
    g
}

// ---- the peak

// Whether a gradient has the sign that the polarity gives an edge, and is not below the contrast
// floor.
fn above_contrast_floor(settings: Settings, inverted: bool, g: f64) -> bool
    ensures { result ≡ above_contrast_floor settings inverted g }
{
    let floor = settings.contrast_floor as f64;
    let sign = if inverted { -1.0 } else { 1.0 };
    g * sign >= floor
}

// The vertex of the parabola through three gradients, the middle one at i.
fn vertex(gm1: f64, g0: f64, gp1: f64, i: u32) -> Option<Peak>
    ensures { result ≡ vertex_of gm1 g0 gp1 i }
{
    let denom = gm1 - 2.0 * g0 + gp1;
    if ieee::abs(denom) < 1e-9 {
        return None;
    }
    let delta = 0.5 * (gm1 - gp1) / denom;
    if !ieee::is_finite(delta) || ieee::abs(delta) > 1.0 {
        return None;
    }
    Some(Peak {
        offset: (i as f64 - 3.0) + delta,
        weight: ieee::abs(g0),
    })
}

// The peak of a profile, of the gradients that clear: 3 first, then of 2 and 4 the one of larger
// magnitude, then 2.
pub fn find_peak(
    settings: Settings,
    inverted: bool,
    inward_differs: bool,
    s: [f64; 7],
) -> Option<Peak>
    ensures { result ≡ peak_of settings inverted inward_differs s }
{
    let g = corrected(s, inward_differs);
    if above_contrast_floor(settings, inverted, g.g3) {
        return vertex(g.g2, g.g3, g.g4, 3);
    }
    let clears_2 = above_contrast_floor(settings, inverted, g.g2);
    let clears_4 = above_contrast_floor(settings, inverted, g.g4);
    if clears_4 && (!clears_2 || ieee::abs(g.g2) < ieee::abs(g.g4)) {
        return vertex(g.g3, g.g4, g.g5, 4);
    }
    if clears_2 {
        vertex(g.g1, g.g2, g.g3, 2)
    } else {
        None
    }
}
