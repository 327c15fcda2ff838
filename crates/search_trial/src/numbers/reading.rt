// How the numbers of a text are read.
ghost use Rattle.std.specs.Prelude.{◌≡◌, ◌+◌, ◌*◌, ◌-◌, ◌%◌, ◌^◌, ◌≤◌, length, not};
ghost use Rattle.std.specs.Char.{is_ascii_digit};
ghost use Rattle.std.specs.Iterator.{YieldsFirst, item_count};
ghost use Rattle.std.specs.List.{prefix_len, fold};
ghost use Rattle.search_trial.specs.Numbers.{left, numbers};

use super::Numbers;

// How many bytes stand before the first digit.
fn gap_len(text: &[u8]) -> usize
    ensures value { result ≡ prefix_len (λ b. not (is_ascii_digit b)) text.now }
    ensures within { result ≤ length text.now }
{
    text.iter().take_while(|b| !b.is_ascii_digit()).count()
}

// How many digits the text begins with.
fn digits_len(text: &[u8]) -> usize
    ensures value { result ≡ prefix_len is_ascii_digit text.now }
    ensures within { result ≤ length text.now }
{
    text.iter().take_while(|b| b.is_ascii_digit()).count()
}

// The number that the digits write, in 32 bits.
fn value(digits: &[u8]) -> u32
    ensures { result ≡ fold (λ n d. (n * 10 + (d - 48)) % 2 ^ 32) 0 digits.now }
{
    digits.iter().fold(0u32, |n, d| {
        n.wrapping_mul(10)
            .wrapping_add(u32::from(d.saturating_sub(b'0')))
    })
}

impl<'a> Numbers<'a> {
    // The numbers of a text.
    pub fn new(text: &'a [u8]) -> Numbers<'a>
        ensures { left result ≡ numbers text.now }
    {
        Numbers { rest: text }
    }
}

// What is no digit only parts the numbers.
impl Iterator for Numbers<'_> {
    type Item = u32;

    ghost next_gives = { YieldsFirst left };

    ghost remaining = { item_count left };

    fn next(&mut self) -> Option<u32> {
        let (_, text) = self.rest.split_at(gap_len(self.rest));
        let (digits, rest) = text.split_at(digits_len(text));
        // Where no number is left too, so that what stands behind the last one is gone through once.
        self.rest = rest;
        if digits.is_empty() {
            return None;
        }
        Some(value(digits))
    }
}
