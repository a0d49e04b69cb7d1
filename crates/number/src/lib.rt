// Why a call is refused: the refusals of document 01, each with its number there, and from 21 on
// those of document 02.
#![tactic(auto)]

ghost use Rattle.std.specs.Prelude.{◌≡◌};
ghost use Rattle.number.specs.Numbers.{number, number_of};

// The number of an answer, for C: no refusal has it, so it is in no enum.
pub const ANSWER: u32 = 0;

// Why there is no answer.
#[derive(Clone, Copy, Debug, PartialEq, Eq)]
pub enum Refusal {
    // Width or height outside its limits.
    Size,
    // The stride is wrong, or the bytes are too few.
    Photograph,
    // The dimension is wrong, the modules are too few, or one is neither 0 nor 1.
    Grid,
    // A scale is not finite or not above 0.
    Scale,
    // A corner is not finite, or lies beyond 2 to the 20 after the division.
    Corner,
    // A camera number is not finite, or a focal length is not above 0.
    Lens,
    // Sheet or copy is shorter than width times height.
    Sheet,
    // Four corners have no map.
    Quad,
    // Fewer than two valid edges in the first round.
    Thin,
    // The points of a line do not spread.
    Line,
    // Centroid, direction or a residual is not finite.
    Overflow,
    // A card is malformed, or its output buffer is too short.
    Card,
    // Fewer than 2 points.
    Points,
    // Points and weights differ in number.
    Pairing,
    // A point or a weight is not finite.
    Finite,
    // The sum of the weights is not above 0, or a weight is negative.
    Weight,
    // There is no sample.
    Outside,
    // Two lines are parallel.
    Parallel,
    // A profile has no edge point.
    Profile,
    // There is no source position.
    Place,
    // A window is even, below 3 or above 31.
    Window,
    // A smoothed scan does not fit where it is to be written.
    Room,
    // A result card is malformed, or of the other form.
    Form,
    // A count is above 255, the largest of an older result card.
    Count,
    // A setting is out of its range or not finite.
    Settings,
}

// The number of a refusal.
impl From<Refusal> for u32 {
    ghost from_gives = { λ refusal n. n ≡ number refusal };

    fn from(refusal: Refusal) -> u32 {
        match refusal {
            Refusal::Size => 1,
            Refusal::Photograph => 2,
            Refusal::Grid => 3,
            Refusal::Scale => 4,
            Refusal::Corner => 5,
            Refusal::Lens => 6,
            Refusal::Sheet => 7,
            Refusal::Quad => 8,
            Refusal::Thin => 9,
            Refusal::Line => 10,
            Refusal::Overflow => 11,
            Refusal::Card => 12,
            Refusal::Points => 13,
            Refusal::Pairing => 14,
            Refusal::Finite => 15,
            Refusal::Weight => 16,
            Refusal::Outside => 17,
            Refusal::Parallel => 18,
            Refusal::Profile => 19,
            Refusal::Place => 20,
            Refusal::Window => 21,
            Refusal::Room => 22,
            Refusal::Form => 23,
            Refusal::Count => 24,
            Refusal::Settings => 25,
        }
    }
}

// The number of what a call returns: 0 for an answer, and else its refusal's.
pub fn number_of<T>(returned: &Result<T, Refusal>) -> u32
    ensures { result ≡ number_of returned.now }
{
    match returned {
        Ok(_) => ANSWER,
        Err(refusal) => u32::from(*refusal),
    }
}
