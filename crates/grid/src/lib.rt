// bitmatrix.rs, `get`: the modules of a label, its edges, and which grids are refused on entry.
#![tactic(auto)]

ghost use Rattle.std.specs.Prelude.{◌≡◌, fold, max};
ghost use Rattle.grid.specs.Grids.{grid_of, edge_of, bits, good_grid};

// An edge of a label.
#[derive(Clone, Copy)]
pub enum LabelEdge {
    Top,
    Right,
    Bottom,
    Left,
}

// The edge of a number. Callers may pass any: past 2 it is the left one.
impl From<u32> for LabelEdge {
    ghost from_gives = { λ number edge. edge ≡ edge_of number };

    fn from(number: u32) -> LabelEdge {
        match number {
            0 => LabelEdge::Top,
            1 => LabelEdge::Right,
            2 => LabelEdge::Bottom,
            _ => LabelEdge::Left,
        }
    }
}

// The largest module; of none 0. It does not stop at the first that is over 1, so that many are compared at once.
fn largest(modules: &[u8]) -> u8
    ensures { result ≡ fold max 0 modules.now }
{
    modules.iter().fold(0, |most: u8, m| most.max(*m))
}

// Whether all modules are 0 or 1.
#[tactic(auto, using(crate::proofs::Modules::bits_largest))]
fn all_bits(modules: &[u8]) -> bool
    ensures { result ≡ bits modules.now }
{
    largest(modules) <= 1
}

// The entry check by `Grid`: whether a grid has 2 to 177 modules a side, enough modules, and each is 0 or 1.
pub fn good_grid(modules: &[u8], dim: u32) -> bool
    ensures { result ≡ good_grid (grid_of dim modules.now) }
{
    let n = dim as usize * dim as usize;
    2 <= dim && dim <= 177 && n <= modules.len() && all_bits(&modules[..n])
}
