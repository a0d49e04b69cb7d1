// sampling.rs: what a sample shows where it falls. The pixels that it reads are marked on a sheet and
// copied; where neither is wanted, two empty slices are lent.
#![tactic(auto)]

ghost use Rattle.std.specs.Prelude.{◌≡◌, ◌+◌, ◌*◌, ◌<◌, ◌≤◌, length};
ghost use Rattle.photograph.specs.Photographs.{photo_of};
ghost use Rattle.footprint.specs.Footprints.{point_footprint};
ghost use Rattle.sampling.specs.Sampling.{cell_of, bilinear, Ordered, sample_bilinear};
ghost use Rattle.sampling.specs.Marks.{buffers, written, cell_marked, ReadsSample};

use footprint::{BorderMode, Footprint};
use number::Refusal;
use photograph::Photograph;
use pixel::SourcePixel;

// The four pixels that a sample falls among: two columns and two rows. The fourth pixel is the last.
#[derive(Clone, Copy)]
struct CellPixels {
    x0: u32,
    y0: u32,
    x1: u32,
    y1: u32,
    ghost ordered: { (x0 ≤ x1) × (y0 ≤ y1) },
}

// Their bytes.
#[derive(Clone, Copy)]
pub struct CellBytes {
    pub v00: u8,
    pub v10: u8,
    pub v01: u8,
    pub v11: u8,
}

// The bytes of four pixels, where the photograph reaches the last of them.
fn read_cell(photograph: Photograph, cell: CellPixels) -> CellBytes
    requires { cell.y1 * photograph.stride + cell.x1 < length photograph.bytes.now }
    ensures { result ≡ cell_of (photo_of photograph.entry)
        cell.x0 cell.y0 cell.x1 cell.y1 }
{
    let stride = photograph.stride;
    let i00 = photograph::place(stride, cell.x0, cell.y0);
    let i10 = photograph::place(stride, cell.x1, cell.y0);
    let i01 = photograph::place(stride, cell.x0, cell.y1);
    let i11 = photograph::place(stride, cell.x1, cell.y1);
    CellBytes {
        v00: photograph.bytes[i00],
        v10: photograph.bytes[i10],
        v01: photograph.bytes[i01],
        v11: photograph.bytes[i11],
    }
}

// The bytes of four pixels. One test does for all where the photograph is whole, as it is behind its entry checks.
fn cell_at(photograph: Photograph, cell: CellPixels) -> CellBytes
    ensures { result ≡ cell_of (photo_of photograph.entry)
        cell.x0 cell.y0 cell.x1 cell.y1 }
{
    if photograph::place(photograph.stride, cell.x1, cell.y1) < photograph.bytes.len() {
        return read_cell(photograph, cell);
    }
    CellBytes {
        v00: photograph.pixel_at(cell.x0, cell.y0),
        v10: photograph.pixel_at(cell.x1, cell.y0),
        v01: photograph.pixel_at(cell.x0, cell.y1),
        v11: photograph.pixel_at(cell.x1, cell.y1),
    }
}

// What they show.
fn bilinear_of(bytes: CellBytes, fx: f64, fy: f64) -> f64
    ensures { result ≡ bilinear bytes.v00 bytes.v10 bytes.v01 bytes.v11 fx fy }
{
    let v00 = bytes.v00 as f64;
    let v10 = bytes.v10 as f64;
    let v01 = bytes.v01 as f64;
    let v11 = bytes.v11 as f64;
    let top = v00 + (v10 - v00) * fx;
    let bottom = v01 + (v11 - v01) * fx;
    top + (bottom - top) * fy
}

// A byte for each of four pixels, into rows of `width` bytes that reach the last of them.
fn write_cell(buffer: &mut [u8], width: u32, cell: CellPixels, bytes: CellBytes)
    requires { cell.y1 * width + cell.x1 < length buffer.old }
    ensures { buffer.new ≡ written width cell.x0 cell.y0 cell.x1 cell.y1 bytes buffer.old }
{
    let i00 = photograph::place(width, cell.x0, cell.y0);
    let i10 = photograph::place(width, cell.x1, cell.y0);
    let i01 = photograph::place(width, cell.x0, cell.y1);
    let i11 = photograph::place(width, cell.x1, cell.y1);
    buffer[i00] = bytes.v00;
    buffer[i10] = bytes.v10;
    buffer[i01] = bytes.v01;
    buffer[i11] = bytes.v11;
}

// Four pixels are marked on the sheet, and copied, where both reach the last of them. Most runs want
// neither and lend two empty slices, so that is asked first.
fn mark_cell(sheet: &mut [u8], copy: &mut [u8], width: u32, cell: CellPixels, bytes: CellBytes)
    ensures { buffers sheet.new copy.new
        ≡ cell_marked width cell.x0 cell.y0 cell.x1 cell.y1 bytes (buffers sheet.old copy.old) }
{
    if sheet.len() == 0 {
        return;
    }
    let last = photograph::place(width, cell.x1, cell.y1);
    if last < sheet.len() && last < copy.len() {
        let ones = CellBytes {
            v00: 1,
            v10: 1,
            v01: 1,
            v11: 1,
        };
        write_cell(sheet, width, cell, ones);
        write_cell(copy, width, cell, bytes);
    }
}

// What a sample shows that falls at a footprint. The pixels that it reads are marked and copied, in rows of
// `width` bytes. Sheet and copy are two parameters: lent as one they would be read from memory at each sample, as
// `profile::localize` says. The order of the pixels is asked for here, and not in `Footprint`, which the definitions
// build without proofs.
fn read_sample(
    photograph: Photograph,
    width: u32,
    sheet: &mut [u8],
    copy: &mut [u8],
    footprint: Footprint,
) -> Option<f64>
    requires { Ordered footprint }
    ensures { ReadsSample (photo_of photograph.entry) width footprint
        result (buffers sheet.old copy.old) (buffers sheet.new copy.new) }
{
    match footprint {
        Footprint::Rejected => None,
        Footprint::Border(v) => Some(v as f64),
        Footprint::Cell {
            x0,
            y0,
            x1,
            y1,
            fx,
            fy,
        } => {
            let cell = CellPixels { x0, y0, x1, y1 };
            let bytes = cell_at(photograph, cell);
            mark_cell(sheet, copy, width, cell, bytes);
            Some(bilinear_of(bytes, fx, fy))
        }
    }
}

// A sample of the refinement at a place of the photograph, or at none, its pixels marked and copied.
// Width and height go side by side, as `photograph` says.
pub fn sample_at(
    photograph: Photograph,
    width: u32,
    height: u32,
    sheet: &mut [u8],
    copy: &mut [u8],
    at: Option<SourcePixel>,
) -> Option<f64>
    ensures { ReadsSample (photo_of photograph.entry) width
        (point_footprint width height at) result
        (buffers sheet.old copy.old) (buffers sheet.new copy.new) }
{
    let footprint = footprint::seen_footprint(width, height, at);
    read_sample(photograph, width, sheet, copy, footprint)
}

// ---- the public call

// The sample at x, y, or why there is none: the photograph's refusal, or `Outside`. Width and height go side by side,
// as `photograph` says. No marks are wanted, so an empty sheet and an empty copy are lent.
pub fn sample_bilinear(
    photograph: Photograph,
    width: u32,
    height: u32,
    x: f64,
    y: f64,
    border: BorderMode,
) -> Result<f64, Refusal>
    ensures { result ≡ sample_bilinear photograph.entry.bytes.now width height photograph.entry.stride
        x y border }
{
    photograph.check(width, height)?;
    let footprint = footprint::footprint_at(width, height, border, x, y);
    let shown = read_sample(photograph, width, &mut [], &mut [], footprint);
    shown.ok_or(Refusal::Outside)
}
