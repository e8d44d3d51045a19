// The text reader's struct, a text and a place in it, and the two ways in which the fields of a line are read from there. One reader of lines serves both.
ghost use Rattle.std.specs.Prelude.{◌≡◌, List, ℕ};
ghost use Rattle.definitions.specs.Fields.{FieldAnswer, six_at, field_of, length_of, field_at, length_at, field_answer, length_answer};
ghost use Rattle.definitions.specs.Reading.{read_field};
ghost use Rattle.text.specs.Outcomes.{Came};

use bounds::Network;
use definitions::{Cause, Length};

// The functions that read lines take the text and the place one by one: their contracts would only name both by a longer path, and each place further on is another reader.
#[derive(Clone, Copy)]
struct Reader<'a> {
    text: &'a [u8],
    at: usize,
}

impl<'a> Reader<'a> {
    fn new(text: &'a [u8], at: usize) -> Reader<'a>
        ensures text { result.text ≡ text.entry }
        ensures at { result.at ≡ at }
    {
        Reader { text, at }
    }

    // The field at the reader's place.
    fn field(self) -> Option<u32>
        ensures { field_answer result ≡ field_at self.entry.text.now self.entry.at }
    {
        fields::read_field(self.text, self.at)
    }

    // The length at the reader's place.
    fn length(self) -> Length
        ensures { length_answer result ≡ length_at self.entry.text.now self.entry.at }
    {
        fields::read_length(self.text, self.at)
    }
}

// How the fields of a line are read.
pub(crate) trait FieldReading {
    // What six bytes say.
    ghost says: { List ℕ → FieldAnswer };

    // The number that the six bytes at a place of the text say; 3 if they say none.
    fn read(text: &[u8], at: usize) -> Result<u32, Cause>
        ensures { Came (read_field (six_at says) text.now at) result (λ x y. x ≡ y) };
}

// Each field is a number.
#[derive(Drop)]
pub(crate) struct Numbers;

impl FieldReading for Numbers {
    ghost says = { field_of };

    #[tactic(auto, using(crate::specs::Returns::field_said))]
    fn read(text: &[u8], at: usize) -> Result<u32, Cause> {
        Reader::new(text, at).field().ok_or(Cause::Layout)
    }
}

// Each field is a length: a number, or `-`, which is no path.
#[derive(Drop)]
pub(crate) struct Lengths;

impl FieldReading for Lengths {
    ghost says = { length_of };

    fn read(text: &[u8], at: usize) -> Result<u32, Cause> {
        match Reader::new(text, at).length() {
            Length::Number(x) => Ok(x),
            Length::NoPath => Ok(Network::NO_PATH),
            Length::Malformed => Err(Cause::Layout),
        }
    }
}
