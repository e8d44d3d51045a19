// What the programs that run outside vectors share: the numbers of a text, and how long one may be. Each program reads its input itself, since no contract
// fixes what standard input holds.
#![tactic(auto)]

ghost use Rattle.std.specs.Prelude.{◌≡◌, [], IsTrue, ◌↔◌, ◌*◌, ◌<◌, ◌≤◌, drop, length, slice_index, EachIndex};
ghost use Rattle.std.specs.Char.{is_ascii_digit};
ghost use Rattle.std.specs.Iterator.Runs.{YieldsInOrder};
ghost use Rattle.replay_text.specs.TextNumbers.{HoldsNumbers, KeepsOthers, Yields, appended, behind_number, behind_numbers, number_at, numbers_left, text_left};

// The longest input.
pub const MAX_BYTES: usize = 1048576;

// One place more shows that an input is longer.
pub const INPUT_PLACES: usize = MAX_BYTES + 1;

// The numbers of a text, one after the other. A number is a longest run of digits; every other byte only separates.
#[derive(Drop)]
pub struct Numbers<'a> {
    text: &'a [u8],
}

// The number that one digit more says, or the largest where it does not fit: the library's `parse` would refuse such a number.
fn append(value: u32, digit: u8) -> u32
    requires { IsTrue (is_ascii_digit digit) }
    ensures { result ≡ appended value digit }
{
    value
        .saturating_mul(10)
        .saturating_add(u32::from(digit - b'0'))
}

impl<'a> Numbers<'a> {
    // All numbers of a text. What calls of `next` give is said here too, so that a caller's chain or `for` over them needs no proof of its own, as over the library's iterators;
    // for a `Numbers` that is lent, the law `numbers_run` says it.
    pub fn new(text: &'a [u8]) -> Numbers<'a>
        ensures text { text_left result ≡ text.now }
        ensures runs { YieldsInOrder Yields numbers_left }
    {
        Numbers { text }
    }

    // Whether no byte is left, a separating one neither.
    pub fn is_at_end(&self) -> bool
        ensures { IsTrue result ↔ (text_left self.now ≡ []) }
    {
        self.text.is_empty()
    }

    // The next number, 0 where none is left.
    pub fn number(&mut self) -> u32
        ensures value { result ≡ number_at (numbers_left self.old) 0 }
        ensures others { numbers_left self.new ≡ drop 1 (numbers_left self.old) }
        ensures text { text_left self.new ≡ behind_number (text_left self.old) }
    {
        self.next().unwrap_or(0)
    }

    // Fills the places with the next numbers, and with 0 where none is left.
    pub fn fill(&mut self, places: &mut [u32])
        ensures filled { EachIndex places.new (λ k. slice_index places.new k ≡ number_at (numbers_left self.old) k) }
        ensures others { numbers_left self.new ≡ drop (length places.old) (numbers_left self.old) }
        ensures text { text_left self.new ≡ behind_numbers (length places.old) (text_left self.old) }
    {
        for place in places.iter_mut() {
            *place = self.number();
        }
    }

    // Fills the first columns of the first rows, row by row; nothing is read where there are not so many.
    pub fn fill_rows<const N: usize>(
        &mut self,
        rows: usize,
        cols: usize,
        rectangle: &mut [[u32; N]],
    )
        ensures filled { rows ≤ length rectangle.old → cols ≤ N → HoldsNumbers rectangle.new rows cols (numbers_left self.old) }
        ensures kept { rows ≤ length rectangle.old → cols ≤ N → KeepsOthers rectangle.old rectangle.new rows cols }
        ensures others { rows ≤ length rectangle.old → cols ≤ N → numbers_left self.new ≡ drop (rows * cols) (numbers_left self.old) }
        ensures text { rows ≤ length rectangle.old → cols ≤ N → text_left self.new ≡ behind_numbers (rows * cols) (text_left self.old) }
        ensures too_many { (rows ≤ length rectangle.old → N < cols) → (rectangle.new ≡ rectangle.old) × (text_left self.new ≡ text_left self.old) }
    {
        if rows > rectangle.len() || cols > N {
            return;
        }
        for row in rectangle[..rows].iter_mut() {
            self.fill(&mut row[..cols]);
        }
    }
}

impl<'a> Iterator for Numbers<'a> {
    ghost use Rattle.std.specs.Iterator.{item_count};

    type Item = u32;

    ghost next_gives = { Yields };

    ghost remaining = { item_count numbers_left };

    // The text that is left then begins behind the number's last digit.
    fn next(&mut self) -> Option<u32> {
        let mut number = None;
        while let Some((byte, others)) = self.text.split_first() {
            if byte.is_ascii_digit() {
                number = Some(append(number.unwrap_or(0), *byte));
            } else if number.is_some() {
                break;
            }
            self.text = others;
        }
        number
    }
}
