// A sample of the refinement at a place of the photograph: its pixels marked and copied, and counted.
#![tactic(auto)]

ghost use Rattle.std.specs.Prelude.{◌≡◌};
ghost use Rattle.sample_tree.specs.Meters.{increment};
ghost use Rattle.sample_tree.specs.Samplers.{SampledAt};

use footprint::Scene;
use photograph::Photograph;
use pixel::SourcePixel;

// What sampling counts: how many samples were tried.
#[derive(Clone, Copy, Default)]
pub struct Meter {
    pub tried: u64,
}

// What a run samples by: the photograph and how it is seen; the sheet and the copy that are marked, where two empty
// ones stand for none; and the count.
#[derive(Drop)]
pub struct Sampler<'a> {
    pub photograph: Photograph<'a>,
    pub scene: Scene,
    pub sheet: &'a mut [u8],
    pub copy: &'a mut [u8],
    pub meter: Meter,
}

impl Meter {
    // One more sample. At the highest number the count stays.
    pub fn incremented(self) -> Meter
        ensures { result ≡ increment self }
    {
        Meter {
            tried: self.tried.saturating_add(1),
        }
    }
}

impl<'a> Sampler<'a> {
    // A sample at a place of the photograph, or at none, its pixels marked and copied.
    pub fn sample(&mut self, at: Option<SourcePixel>) -> Option<f64>
        ensures { SampledAt self.old self.new at result }
    {
        let shown = sampling::sample_at(
            self.photograph,
            self.scene.width,
            self.scene.height,
            self.sheet,
            self.copy,
            at,
        );
        self.meter = self.meter.incremented();
        shown
    }
}
