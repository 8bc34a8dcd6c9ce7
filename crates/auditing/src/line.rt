// A value line of a log, which stands here without its byte 10.
ghost use Rattle.std.specs.Prelude.{◌≡◌};
ghost use Rattle.auditing.specs.Parts.{line_read};

use text::fields::fill_from_line;
use text::number::Limits;

// A value has at most 10 digits, and is one of 32 bits.
const VALUES: Limits = Limits {
    digits: 10,
    largest: 4_294_967_295,
};

// The tasks that were released, were finished and ran in a slot, each as the sum of 2 to the power (task number - 1).
#[derive(Clone, Copy)]
pub struct LogLine {
    pub released: u32,
    pub finished: u32,
    pub ran: u32,
}

// The values of a line, where it is not broken.
pub(crate) fn read_line(line: &[u8]) -> Option<LogLine>
    ensures { result ≡ line_read line.now }
{
    let mut values = [0u32; 3];
    if !fill_from_line(line, &mut values, VALUES) {
        return None;
    }
    Some(LogLine {
        released: values[0],
        finished: values[1],
        ran: values[2],
    })
}
