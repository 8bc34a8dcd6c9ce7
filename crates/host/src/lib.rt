// The one entry for a host program in C.
#![tactic(auto)]

ghost use Rattle.std.specs.Prelude.{◌≡◌};
ghost use Rattle.host.specs.Host.{number_for, host_answer};

use judge::admission::admit_arrays;
use reader::numbers::read_arrays;
use tasks::limits::MAX_TASKS;
use tasks::refusals::Refusal;

// What is added to a refusal's number.
const REFUSED: u32 = 100;

// Whether the slack test admits the table of the text on this many cores, or why there is no such table or no answer. The arrays are apart: one value of
// 384 bytes would be cleared by a call of memset, and the archive needs no name from outside.
fn admit_text(text: &[u8], cores: u32) -> Result<bool, Refusal>
    ensures { number_for result ≡ host_answer text.now cores }
{
    let mut periods = [0; MAX_TASKS];
    let mut budgets = [0; MAX_TASKS];
    let mut deadlines = [0; MAX_TASKS];
    let count = read_arrays(text, &mut periods, &mut budgets, &mut deadlines)?;
    admit_arrays(&periods, &budgets, &deadlines, count, cores)
}

// 1 if the slack test admits the table of the text on this many cores, 0 if it does not, 100 plus the refusal's number otherwise.
#[tactic(auto, using(laws::proofs::Booleans::bool_byte_lem), unfolding(crate::specs::Host::number_for))]
#[unsafe(no_mangle)]
pub extern "C" fn edzl_admit(text: &[u8], cores: u32) -> u32
    ensures { result ≡ host_answer text.now cores }
{
    match admit_text(text, cores) {
        Ok(admitted) => admitted as u32,
        Err(refusal) => REFUSED + refusal.reason.number(),
    }
}
