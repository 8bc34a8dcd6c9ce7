// Whether a call was carried out.
use crate::refusals::Refusal;

// Nothing but that it was carried out, or why it was not.
pub type Outcome = Result<(), Refusal>;
