// The calls over cards: each hands on what the one of its name in `cards` or `result_card` gives. The parameters are
// those of the C interface.
ghost use Rattle.std.specs.Prelude.{◌≡◌};
ghost use Rattle.number.specs.Numbers.{number_of};
ghost use Rattle.cards.specs.Run.{run_end, run_leaves};
ghost use Rattle.result_card.specs.Convert.{widen_answer, widened, narrow_answer, narrowed};

// ---- cards

// A job card run, its result card written to a buffer: `cards::run_card` under its name for C.
#[unsafe(no_mangle)]
pub extern "C" fn trufolmesca_run_card(card: &[u8], out: &mut [u8]) -> u32
    ensures value { result ≡ number_of (run_end card.now out.old) }
    ensures out_after { out.new ≡ run_leaves card.now out.old }
{
    number::number_of(&cards::run_card(card, out))
}

// An older result card written as a newer one: `result_card::widen_result_card` under its name for C.
#[unsafe(no_mangle)]
pub extern "C" fn trufolmesca_widen_result_card(card: &[u8], out: &mut [u8]) -> u32
    ensures value { result ≡ number_of (widen_answer card.now out.old) }
    ensures out_after { out.new ≡ widened card.now out.old }
{
    number::number_of(&result_card::widen_result_card(card, out))
}

// A newer result card written as an older one: `result_card::narrow_result_card` under its name for C.
#[unsafe(no_mangle)]
pub extern "C" fn trufolmesca_narrow_result_card(card: &[u8], out: &mut [u8]) -> u32
    ensures value { result ≡ number_of (narrow_answer card.now out.old) }
    ensures out_after { out.new ≡ narrowed card.now out.old }
{
    number::number_of(&result_card::narrow_result_card(card, out))
}

// ---- end
