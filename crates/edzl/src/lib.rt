// EDZL on plain numbers: the definitions stand in specs/, the theory in proofs/. Here is what the code of the tests computes with.
#![tactic(auto)]

ghost use Rattle.std.specs.Prelude.{◌≡◌, ◌-◌, min};

// The smaller of two numbers.
pub fn min(a: u32, b: u32) -> u32
    ensures { result ≡ min a b }
{
    a.min(b)
}

// What is left of a number when another is taken from it: nothing at least.
pub fn saturating_sub(number: u32, taken: u32) -> u32
    ensures { result ≡ number - taken }
{
    number.saturating_sub(taken)
}

// What a task counts for in its own sum: in a window of its deadline less its slack it interferes by its budget.
pub fn own_part(budget: u32, spare: u32) -> u32
    ensures { result ≡ min budget spare }
{
    min(budget, spare)
}
