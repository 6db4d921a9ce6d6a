// The number, the word and the text of a fault.
ghost use Rattle.codes.specs.Codes.{fault_number, fault_word, fault_text};
ghost use Rattle.std.specs.Prelude.{◌≡◌, Some};

use super::Fault;
use std::fmt;

impl Fault {
    // The number by which people and formats know the fault.
    pub fn number(self) -> u8
        ensures { result ≡ fault_number self }
    {
        self as u8
    }

    // The word by which people and formats know the fault.
    pub fn word(self) -> &'static str
        ensures { result.now ≡ fault_word self }
    {
        "fault"
    }
}

// The number, a blank and the word. A trait for both kinds of codes would be longer than this line twice.
impl fmt::Display for Fault {
    ghost output = { λ f. Some (fault_text f) };

    fn fmt<W: fmt::Write>(&self, f: &mut fmt::Formatter<W>) -> fmt::Result {
        let number = self.number();
        let word = self.word();
        write!(f, "{number} {word}")
    }
}
