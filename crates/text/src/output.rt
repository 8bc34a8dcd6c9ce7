// A text that is put together in an array, part by part. What puts a text after the first `used` bytes of a lent array answers how many bytes the array
// then holds. Bytes that have no room are left out, and the answer is then above the array's length, and stays there whatever is put later. An `Output` is
// such an array with the number of its bytes that are used.
ghost use Rattle.std.specs.Prelude.{◌≡◌, ◌<◌, length, MatchOption};
ghost use Rattle.text.specs.Number.{decimal_text};
ghost use Rattle.text.specs.Output.{PutAt, fresh, put, Holds, numbers_line, refused_line};

// Puts a text.
pub fn put(output: &mut [u8], used: usize, text: &[u8]) -> usize
    ensures { PutAt output.old used text.now output.new result }
{
    let mut at = used;
    for &byte in text {
        if output.len() < at {
            return at;
        }
        if output.len() == at {
            return at + 1;
        }
        output[at] = byte;
        at += 1;
    }
    at
}

// Puts a number in base ten.
pub fn put_number(output: &mut [u8], used: usize, number: u64) -> usize
    ensures { PutAt output.old used (decimal_text number) output.new result }
{
    let mut digits = [0u8; 20];
    let n = io::decimal(number, &mut digits);
    put(output, used, &digits[..n])
}

// Puts a line of numbers, with a space between them.
pub fn put_numbers(output: &mut [u8], used: usize, numbers: &[u64]) -> usize
    ensures { PutAt output.old used (numbers_line numbers.now) output.new result }
{
    let Some((&first, others)) = numbers.split_first() else {
        return put(output, used, b"\n");
    };
    let mut at = put_number(output, used, first);
    for &number in others {
        at = put(output, at, b" ");
        at = put_number(output, at, number);
    }
    put(output, at, b"\n")
}

// Puts the line that tells a refusal number.
pub fn put_refused(output: &mut [u8], used: usize, number: u32) -> usize
    ensures { PutAt output.old used (refused_line number) output.new result }
{
    let at = put(output, used, b"REFUSED ");
    put_numbers(output, at, &[number as u64])
}

// A text that is put together in an array: its first `used` bytes. Bytes that have no room are left out, and `used` is then above the array's length,
// and stays there whatever is put later. An array and no Vec, since on a heap each part that is put could fail.
#[derive(Drop)]
pub struct Output<const N: usize> {
    bytes: [u8; N],
    used: usize,
}

impl<const N: usize> Output<N> {
    // Nothing was put yet.
    #[tactic(auto, unfolding(crate::specs::Output::fresh))]
    pub fn new() -> Self
        ensures { result ≡ fresh N }
    {
        Output {
            bytes: [0; N],
            used: 0,
        }
    }

    // An array of which so many bytes are used, or more than it has.
    pub fn from_parts(bytes: [u8; N], used: usize) -> Self
        ensures { result ≡ record { bytes = bytes.entry; used = used } }
    {
        Output { bytes, used }
    }

    // Puts a text.
    #[tactic(auto, unfolding(crate::specs::Output::put))]
    pub fn put(&mut self, text: &[u8])
        ensures { self.new ≡ put self.old text.now }
    {
        self.used = put(&mut self.bytes, self.used, text);
    }

    // Puts a number in base ten.
    #[tactic(auto, unfolding(crate::specs::Output::put))]
    pub fn put_number(&mut self, number: u64)
        ensures { self.new ≡ put self.old (decimal_text number) }
    {
        self.used = put_number(&mut self.bytes, self.used, number);
    }

    // Puts a line of numbers, with a space between them.
    #[tactic(auto, unfolding(crate::specs::Output::put))]
    pub fn put_numbers(&mut self, numbers: &[u64])
        ensures { self.new ≡ put self.old (numbers_line numbers.now) }
    {
        self.used = put_numbers(&mut self.bytes, self.used, numbers);
    }

    // Puts the line that tells a refusal number.
    #[tactic(auto, unfolding(crate::specs::Output::put))]
    pub fn put_refused(&mut self, number: u32)
        ensures { self.new ≡ put self.old (refused_line number) }
    {
        self.used = put_refused(&mut self.bytes, self.used, number);
    }

    // What was put, if all of it had room.
    pub fn text(&self) -> Option<&[u8]>
        ensures { MatchOption result (length self.now.bytes < self.now.used) (λ text. Holds text.now self.now) }
    {
        self.bytes.get(..self.used)
    }
}
