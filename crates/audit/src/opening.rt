// What stands before a log: the line CORES m, the table, and the line LOG.
ghost use Rattle.std.specs.Prelude.{◌≡◌};
ghost use Rattle.audit.specs.Opening.{opened_for, opened, is_decided, goes_on_with};

use auditing::auditor::Auditor;
use script::calls::NUMBERS;
use script::word_line::find_word_line;
use tasks::limits::MAX_TEXT_LENGTH;
use tasks::refusals::Reason;
use text::bytes;
use text::number::number_after;

// The auditor of the input's log, or the number of the input's bad line.
pub type Opening = Result<Auditor, usize>;

// Whether nothing that follows can change what is printed.
#[tactic(auto, unfolding(crate::specs::Opening::is_decided))]
pub fn is_decided(opening: Opening) -> bool
    ensures { result ≡ is_decided opening }
{
    let Ok(auditor) = opening else {
        return true;
    };
    !auditor.goes_on()
}

// After the next part of the log.
#[tactic(auto, unfolding(crate::specs::Opening::goes_on_with))]
pub fn feed(opening: Opening, part: &[u8]) -> Opening
    ensures { result ≡ goes_on_with opening part.now }
{
    let auditor = opening?;
    Ok(auditor.feed(part))
}

// The auditor of the text of a table and the cores, after the log's first part.
fn open_table(text: &[u8], cores: u32, log: &[u8]) -> Auditor
    ensures { result ≡ opened_for text.now cores log.now }
{
    let reading = reader::read(text);
    if let Err(refusal) = reading.outcome {
        return Auditor::refused(refusal);
    }
    let auditor = Auditor::start(reading.table, cores);
    auditor.feed(log)
}

// The first part of the input: it is full, or all of the input.
pub fn open(input: &[u8]) -> Opening
    ensures { result ≡ opened input.now }
{
    let length = bytes::find(input, b'\n');
    if input.len() <= length {
        return Err(1);
    }
    let Some(cores) = number_after(&input[..length], b"CORES ", NUMBERS) else {
        return Err(1);
    };
    let text = &input[length + 1..];
    match find_word_line(text, b"LOG") {
        Ok(found) => Ok(open_table(&text[..found.start], cores, &text[found.next..])),
        Err(line) => {
            if MAX_TEXT_LENGTH < text.len() {
                return Ok(Auditor::refused(Reason::TextTooLong.at(0)));
            }
            Err(line)
        }
    }
}
