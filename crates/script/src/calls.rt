// The call of a line, which stands here without its byte 10.
ghost use Rattle.std.specs.Prelude.{◌≡◌};
ghost use Rattle.script.specs.Calls.{release_of, task_fields, offer_of, call_of};

use crate::task::task_fields;
use machine::call::Call;
use text::bytes::{begins_with, same};
use text::fields::fill_from_line;
use text::number::{Limits, number_after};

// A number of a script has at most 10 digits, and is one of 32 bits.
pub const NUMBERS: Limits = Limits {
    digits: 10,
    largest: 4_294_967_295,
};

// The release of the fields of a line, if they are two numbers.
fn release_fields(fields: &[u8]) -> Option<Call>
    ensures { result ≡ release_of fields.now }
{
    let mut numbers = [0u32; 2];
    if !fill_from_line(fields, &mut numbers, NUMBERS) {
        return None;
    }
    Some(Call::Release {
        number: numbers[0],
        need: numbers[1],
    })
}

// The offer of the fields of a line, if they are a task.
#[tactic(auto, unfolding(crate::specs::Calls::offer_of))]
fn offer_fields(fields: &[u8]) -> Option<Call>
    ensures { result ≡ offer_of (task_fields fields.now) }
{
    let task = task_fields(fields)?;
    Some(Call::Offer(task))
}

// The call of a line, if it is one.
#[tactic(auto, using(text::proofs::WordLaws::not_longer), unfolding(crate::specs::Calls::call_of, crate::specs::Calls::call_with))]
pub fn call_line(line: &[u8]) -> Option<Call>
    ensures { result ≡ call_of line.now }
{
    if let Some(available) = number_after(line, b"SLOT ", NUMBERS) {
        return Some(Call::Slot(available));
    }
    if let Some(number) = number_after(line, b"FINISH ", NUMBERS) {
        return Some(Call::Finish(number));
    }
    let release = b"RELEASE ";
    if begins_with(line, release) {
        return release_fields(&line[release.len()..]);
    }
    let offer = b"OFFER ";
    if begins_with(line, offer) {
        return offer_fields(&line[offer.len()..]);
    }
    if same(line, b"COMMIT") {
        return Some(Call::Commit);
    }
    None
}
