// Where a line that is one word stands, as CALLS of a script or LOG before a log.
ghost use Rattle.std.specs.Prelude.{◌≡◌};
ghost use Rattle.script.specs.WordLine.{word_line};

use text::bytes;

// What stands before the line ends at `start`, what follows it begins at `next`, and the first line of that is the line `line` of the whole input.
#[derive(Clone, Copy)]
pub struct WordLine {
    pub start: usize,
    pub next: usize,
    pub line: usize,
}

// Where the first line that is the word stands in the text after the input's first line, or the line where it was expected.
pub fn find_word_line(text: &[u8], word: &[u8]) -> Result<WordLine, usize>
    ensures { result ≡ word_line word.now text.now }
{
    let mut at: usize = 0;
    let mut line: usize = 2;
    // No `for`: each turn passes a line, however long; where it begins and its number are the answer.
    while at < text.len() {
        let rest = &text[at..];
        let length = bytes::find(rest, b'\n');
        if rest.len() <= length {
            return Err(line);
        }
        let next = at + length + 1;
        if bytes::same(&rest[..length], word) {
            return Ok(WordLine {
                start: at,
                next,
                line: line + 1,
            });
        }
        at = next;
        line += 1;
    }
    Err(line)
}
