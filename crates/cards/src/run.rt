// A job card, run without marking, as the printing program does.
ghost use Rattle.std.specs.Prelude.{◌≡◌};
ghost use Rattle.cards.specs.Run.{job_answer, run_end, run_leaves};

use corners::Answer;
use job::{modules_of, photograph_of, request_of};
use job_card::well_formed;
use number::Refusal;
use result_card::{RESULT_SIZE, put_result};

// The answer of a job card: refused by `Card` where it is malformed, else that of the refinement it asks for.
pub fn run_job(card: &[u8]) -> Answer
    ensures { result ≡ job_answer card.now }
{
    if !well_formed(card) {
        return Err(Refusal::Card);
    }
    refine::refine_corners_mapped(photograph_of(card), modules_of(card), request_of(card))
}

// Runs a job card into a buffer: refused as the job is, and by `Card` where the buffer is under 105 bytes; writes the result
// card to the front of the buffer for an answer alone.
pub fn run_card(card: &[u8], out: &mut [u8]) -> Result<(), Refusal>
    ensures value { result ≡ run_end card.now out.old }
    ensures out_after { out.new ≡ run_leaves card.now out.old }
{
    if out.len() < RESULT_SIZE {
        return Err(Refusal::Card);
    }
    put_result(out, run_job(card)?);
    Ok(())
}
