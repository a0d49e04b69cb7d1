// A job card, run by the marking call.
ghost use Rattle.cards.specs.RunMarking.{JobMarks};

use corners::Answer;
use job::{modules_of, photograph_of, request_of};
use job_card::well_formed;
use number::Refusal;

// Runs a job card, and writes what it read to sheet and copy, as `marking::refine_corners_mapped_marking` does: two
// buffers, as document 01 lends them. A malformed card writes nothing.
pub fn run_job_marking(card: &[u8], sheet: &mut [u8], copy: &mut [u8]) -> Answer
    ensures { JobMarks card.now result
        sheet.old sheet.new copy.old copy.new }
{
    if !well_formed(card) {
        return Err(Refusal::Card);
    }
    marking::refine_corners_mapped_marking(
        photograph_of(card),
        modules_of(card),
        request_of(card),
        sheet,
        copy,
    )
}
