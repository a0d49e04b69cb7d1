// The marking calls: a refinement that also writes which pixels it read, and a copy of the photograph with all others blanked.
#![tactic(auto)]

ghost use Rattle.photograph.specs.Photographs.{photo_of};
ghost use Rattle.request.specs.Requests.{lent, plain, scene_of};
ghost use Rattle.refine.specs.Refine.{refinement};
ghost use Rattle.marking.specs.Marking.{Marks, Ready, RunsMarked};

use corners::Answer;
use number::Refusal;
use photograph::Photograph;
use request::Request;
use sample_tree::{Meter, Sampler};

// `refine::refine_corners`, marked. Sheet and copy are lent width × height bytes or more, in rows of width bytes. Refused
// by an entry check, `Size` to `Sheet`, it writes nothing; otherwise, also where it is refused for another reason, it
// writes the first width × height bytes of both. Two calls, as those of `refine`, and two buffers, as document 01 lends
// them.
pub fn refine_corners_marking(
    photograph: Photograph,
    modules: &[u8],
    request: Request,
    sheet: &mut [u8],
    copy: &mut [u8],
) -> Answer
    ensures { Marks (plain request) modules.now
        (lent photograph.entry) result
        sheet.old sheet.new copy.old copy.new }
{
    refine_corners_mapped_marking(photograph, modules, request.plain(), sheet, copy)
}

// The same, as seen through the camera where there is one: the entry checks, `Sheet` the last, and behind them the run.
pub fn refine_corners_mapped_marking(
    photograph: Photograph,
    modules: &[u8],
    request: Request,
    sheet: &mut [u8],
    copy: &mut [u8],
) -> Answer
    ensures { Marks request modules.now
        (lent photograph.entry) result
        sheet.old sheet.new copy.old copy.new }
{
    request::entry(photograph, modules, request)?;
    let area = request::area(request.width, request.height);
    if sheet.len() < area || copy.len() < area {
        return Err(Refusal::Sheet);
    }
    marking_run(photograph, modules, request, sheet, copy)
}

// The rounds on a cleared sheet and a cleared copy.
fn marking_run(
    photograph: Photograph,
    modules: &[u8],
    request: Request,
    sheet: &mut [u8],
    copy: &mut [u8],
) -> Answer
    requires { Ready request sheet.old copy.old }
    ensures { RunsMarked (scene_of request)
        (photo_of photograph.entry)
        (refinement request modules.now) result
        sheet.old sheet.new copy.old copy.new }
{
    let area = request::area(request.width, request.height);
    sheet[..area].fill(0);
    copy[..area].fill(0);
    let mut sampler = Sampler {
        photograph,
        scene: request.scene(),
        sheet,
        copy,
        meter: Meter::default(),
    };
    refine::refine_entered(&mut sampler, modules, request)
}
