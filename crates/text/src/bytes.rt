// Bytes of a text: where one is, the field before it, what a text begins with, and whether two texts are the same.
ghost use Rattle.std.specs.Prelude.{◌≡◌, length};
ghost use Rattle.text.specs.Lines.{before};
ghost use Rattle.text.specs.Words.{same_bytes, begins_with};

// The same as `find`, one byte in a turn: for the last bytes of a text.
fn find_one_by_one(text: &[u8], byte: u8) -> usize
    ensures { result ≡ length (before byte text.now) }
{
    text.iter().position(|b| *b == byte).unwrap_or(text.len())
}

// How many bytes stand before the first such byte: all of them where there is none. Four are looked at in a turn, with one test of the length for all.
pub fn find(text: &[u8], byte: u8) -> usize
    ensures { result ≡ length (before byte text.now) }
{
    let mut i: usize = 0;
    while 4 <= text.len() - i {
        if text[i] == byte {
            return i;
        }
        if text[i + 1] == byte {
            return i + 1;
        }
        if text[i + 2] == byte {
            return i + 2;
        }
        if text[i + 3] == byte {
            return i + 3;
        }
        i += 4;
    }
    i + find_one_by_one(&text[i..], byte)
}

// The field that stands before the first byte `end` of a text, or is all of the text where there is none.
pub fn field_up_to(text: &[u8], end: u8) -> &[u8]
    ensures { result.now ≡ before end text.now }
{
    let length = find(text, end);
    &text[..length]
}

// Whether two texts have the same bytes. All of them are compared, without a way out at the first that differ, so that the compiler can take several at once.
pub fn same(a: &[u8], b: &[u8]) -> bool
    ensures { result ≡ same_bytes a.now b.now }
{
    if a.len() != b.len() {
        return false;
    }
    let mut equal = true;
    for i in 0..a.len() {
        equal &= a[i] == b[i];
    }
    equal
}

// Whether a text begins with a word.
pub fn begins_with(text: &[u8], word: &[u8]) -> bool
    ensures { result ≡ begins_with word.now text.now }
{
    word.len() <= text.len() && same(&text[..word.len()], word)
}
