// Some of a table's tasks: a flag for each task, and all flags as one number.
ghost use Rattle.std.specs.Prelude.{◌≡◌};
ghost use Rattle.tasks.specs.Flags.{mask, flags_of};

use crate::limits::MAX_TASKS;

// One flag for each task, by its index.
pub type Flags = [bool; MAX_TASKS];

// The tasks that are named, as the sum of 2 to the power (task number - 1).
pub fn mask(named: Flags) -> u64
    ensures { result ≡ mask named }
{
    let mut sum: u64 = 0;
    for i in (0..MAX_TASKS).rev() {
        sum = named[i] as u64 + 2 * sum;
    }
    sum
}

// The tasks that such a sum names.
pub fn flags_of(sum: u32) -> Flags
    ensures { result ≡ flags_of sum }
{
    let mut named = [false; MAX_TASKS];
    let mut rest = sum;
    for i in 0..MAX_TASKS {
        named[i] = rest % 2 == 1;
        rest /= 2;
    }
    named
}
