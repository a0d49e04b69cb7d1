// The settings that the calls for C and Rust are lent. bindings/trufolmesca.h says what the list holds.
#![tactic(auto)]

ghost use Rattle.std.specs.Prelude.{◌≡◌};
ghost use Rattle.c_settings.specs.Lent.{settings_of, whole_of};

use c_lists::float_at;
use consts::Settings;

// The whole number that a float is. Any other float gives 0, which no setting that is a whole number may be, so that it
// is refused by 25 as one out of range.
fn whole_of(x: f64) -> u32
    ensures { result ≡ whole_of x }
{
    let n = ieee_whole::whole_part(x);
    if n as f64 == x { n } else { 0 }
}

// The settings of a list of nine numbers, in the order of document 02.
pub fn settings_of(list: &[f64]) -> Settings
    ensures { result ≡ settings_of list.now }
{
    Settings {
        probe_fraction_first: float_at(list, 0),
        probe_fraction_second: float_at(list, 1),
        edge_margin_modules: float_at(list, 2),
        max_points_per_edge: whole_of(float_at(list, 3)),
        min_edge_points: whole_of(float_at(list, 4)),
        contrast_floor: whole_of(float_at(list, 5)),
        outlier_floor_modules: float_at(list, 6),
        outlier_median_multiplier: float_at(list, 7),
        rounds: whole_of(float_at(list, 8)),
    }
}
