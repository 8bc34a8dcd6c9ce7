// The task of the fields of a line, for an offer and for what a machine made by hand holds.
ghost use Rattle.std.specs.Prelude.{◌≡◌};
ghost use Rattle.script.specs.Calls.{task_fields};

use crate::calls::NUMBERS;
use tasks::task::Task;
use text::fields::fill_from_line;

// The task of the fields of a line, if they are three numbers.
pub fn task_fields(fields: &[u8]) -> Option<Task>
    ensures { result ≡ task_fields fields.now }
{
    let mut numbers = [0u32; 3];
    if !fill_from_line(fields, &mut numbers, NUMBERS) {
        return None;
    }
    Some(Task {
        period: numbers[0],
        budget: numbers[1],
        deadline: numbers[2],
    })
}
