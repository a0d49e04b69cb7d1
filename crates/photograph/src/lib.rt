// A photograph's bytes: where a pixel lies among them, and which photographs are refused by `Size` and `Photograph`.
#![tactic(auto)]

ghost use Rattle.std.specs.Prelude.{◌≡◌, ◌+◌, ◌-◌, ◌*◌, length};
ghost use Rattle.photograph.specs.Photographs.{photo_of, sized as sized_by, good_size, good_photograph, photograph_check};

use number::Refusal;

// A width or a height is at most this.
const MAX_SIDE: u32 = 16384;

// A stride is at most this.
const MAX_STRIDE: u32 = 65535;

// A photograph: bytes by rows of `stride`.
#[derive(Clone, Copy)]
pub struct Photograph<'a> {
    pub bytes: &'a [u8],
    pub stride: u32,
}

// ---- where a pixel lies

// The last column or row of n; of none, 0.
pub fn last(n: u32) -> u32
    ensures { result ≡ n - 1 }
{
    n.saturating_sub(1)
}

// The place of a pixel among rows of `stride` bytes.
pub fn place(stride: u32, x: u32, y: u32) -> usize
    ensures { result ≡ y * stride + x }
{
    (y as usize) * (stride as usize) + (x as usize)
}

// ---- the entry checks of a photograph

// Whether a width or a height is within its limits.
fn sized(n: u32) -> bool
    ensures { result ≡ sized_by n }
{
    n >= 1 && n <= MAX_SIDE
}

// Whether width and height are within their limits. They go side by side as in the Rust, whose calls take the two.
fn good_size(width: u32, height: u32) -> bool
    ensures { result ≡ good_size width height }
{
    sized(width) && sized(height)
}

// Rows that hold the width, and bytes up to the last pixel. Bytes past it are not looked at.
fn good_photograph(width: u32, height: u32, stride: u32, bytes: usize) -> bool
    ensures { result ≡ good_photograph width height stride bytes }
{
    stride >= width && stride <= MAX_STRIDE && place(stride, width, last(height)) <= bytes
}

// Whether so many bytes are a photograph of this width and height: `Size`, then `Photograph`.
pub fn photograph_check(width: u32, height: u32, stride: u32, bytes: usize) -> Result<(), Refusal>
    ensures { result ≡ photograph_check width height stride bytes }
{
    if !good_size(width, height) {
        return Err(Refusal::Size);
    }
    if !good_photograph(width, height, stride, bytes) {
        return Err(Refusal::Photograph);
    }
    Ok(())
}

impl<'a> Photograph<'a> {
    // A pixel of the photograph; 0 past its end.
    pub fn pixel_at(self, x: u32, y: u32) -> u8
        ensures { result ≡ photo_of self.entry x y }
    {
        self.bytes
            .get(place(self.stride, x, y))
            .copied()
            .unwrap_or(0)
    }

    // Whether this is a photograph of this width and height.
    pub fn check(self, width: u32, height: u32) -> Result<(), Refusal>
        ensures { result ≡ photograph_check width height self.entry.stride (length self.entry.bytes.now) }
    {
        photograph_check(width, height, self.stride, self.bytes.len())
    }
}
