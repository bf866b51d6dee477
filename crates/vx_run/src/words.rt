// The words of a line, and the numbers that their digits write.

ghost use Rattle.std.specs.Prelude.{◌≡◌, ◌↔◌, ◌≤◌, ◌^◌, length, All, IsTrue, MatchOption};
ghost use Rattle.std.specs.Iterator.{at_most};
ghost use Rattle.vx_run.specs.Words.{IsDecimal, IsDigit, decimal, with_digit};

// The words of a line, in order: the longest runs of bytes other than spaces.
//
// A line of spaces alone has no words.
#[derive(Clone, Copy, Debug)]
pub(crate) struct Words<'a> {
    rest: &'a [u8],
}

impl<'a> Words<'a> {
    // The words of `line`, which has no line feed at its end.
    pub(crate) fn new(line: &'a [u8]) -> Words<'a> {
        Words { rest: line }
    }
}

impl<'a> Iterator for Words<'a> {
    type Item = &'a [u8];

    ghost remaining = { λ words. at_most (length words.rest.now) };

    fn next(&mut self) -> Option<&'a [u8]> {
        let line = self.rest;
        let start = line.iter().position(|byte| *byte != b' ')?;
        let from_word = &line[start..];
        let end = from_word
            .iter()
            .position(|byte| *byte == b' ')
            .unwrap_or(from_word.len());
        self.rest = &from_word[end..];
        Some(&from_word[..end])
    }
}

// Whether a word is decimal digits alone, at least one.
pub(crate) fn is_decimal(word: &[u8]) -> bool
    ensures { IsTrue result ↔ IsDecimal word.now }
{
    !word.is_empty() && word.iter().all(|byte| byte.is_ascii_digit())
}

// The number that decimal digits write, or `None` where it passes `usize`.
pub(crate) fn decimal_value(digits: &[u8]) -> Option<usize>
    requires { All IsDigit digits.now }
    ensures { MatchOption result (2 ^ 64 ≤ decimal digits.now) (λ number. number ≡ decimal digits.now) }
{
    let mut number: usize = 0;
    for digit in digits {
        number = append_digit(number, *digit)?;
    }
    Some(number)
}

// The number whose digits are those of `number` and then `digit`, or `None` where it passes
// `usize`.
fn append_digit(number: usize, digit: u8) -> Option<usize>
    requires { IsDigit digit }
    ensures { MatchOption result (2 ^ 64 ≤ with_digit number digit) (λ more. more ≡ with_digit number digit) }
{
    number
        .checked_mul(10)?
        .checked_add(usize::from(digit - b'0'))
}
