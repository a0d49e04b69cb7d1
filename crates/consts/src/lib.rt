// consts.rs: the numbers of the refinement, in one record that goes by value, and which of them are taken.
#![tactic(auto)]

ghost use Rattle.std.specs.Prelude.{◌≡◌};
ghost use Rattle.consts.specs.Consts.{between, defaults as the_defaults, good_settings};

#[derive(Clone, Copy)]
pub struct Settings {
    // Where in a dark border module its two probes stand; by default inside it, one to each side of its middle.
    pub probe_fraction_first: f64,
    pub probe_fraction_second: f64,
    // Modules left out at each end of an edge: blur rounds a corner over about a module.
    pub edge_margin_modules: f64,
    // Probes of an edge at most: bounds the cost whatever the label's dimension.
    pub max_points_per_edge: u32,
    // Points that an edge's line needs: a line has 2 degrees of freedom, so 6 leave 4 to spare.
    pub min_edge_points: u32,
    // The least gradient of an edge: ink and background differ by more than a sensor's noise.
    pub contrast_floor: u32,
    // Residuals up to so many modules stay, so that rounding alone drops no point of a perfect edge.
    pub outlier_floor_modules: f64,
    // Residuals up to so many medians stay, by how well this edge's own points fit.
    pub outlier_median_multiplier: f64,
    // Rounds, each from the corners of the last: after the second the geometry's error is far below the rest.
    pub rounds: u32,
}

// How many points an edge has room for: as many as settings may ask for, two for each of 177 modules.
pub const MAX_EDGE_POINTS: usize = 354;

// The numbers of consts.rs.
pub fn defaults() -> Settings
    ensures { result ≡ the_defaults }
{
    Settings {
        probe_fraction_first: 0.35,
        probe_fraction_second: 0.7,
        edge_margin_modules: 1.5,
        max_points_per_edge: 64,
        min_edge_points: 6,
        contrast_floor: 12,
        outlier_floor_modules: 0.15,
        outlier_median_multiplier: 2.0,
        rounds: 2,
    }
}

// Whether a number lies between two others or is one of them. A NaN does not.
fn between(low: f64, high: f64, x: f64) -> bool
    ensures { result ≡ between low high x }
{
    low <= x && x <= high
}

// Whether each setting is within its range.
pub fn good_settings(settings: Settings) -> bool
    ensures { result ≡ good_settings settings }
{
    between(0.0, 1.0, settings.probe_fraction_first)
        && between(0.0, 1.0, settings.probe_fraction_second)
        && between(1.0, 10.0, settings.edge_margin_modules)
        && (1 <= settings.max_points_per_edge && settings.max_points_per_edge <= 354)
        && (2 <= settings.min_edge_points && settings.min_edge_points <= 354)
        && (1 <= settings.contrast_floor && settings.contrast_floor <= 255)
        && between(0.0, 100.0, settings.outlier_floor_modules)
        && between(0.0, 100.0, settings.outlier_median_multiplier)
        && (1 <= settings.rounds && settings.rounds <= 4)
}
