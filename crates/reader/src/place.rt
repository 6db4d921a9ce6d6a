// Where a byte stands in a text, as people count.
ghost use Rattle.reader.specs.Places.{first_place, position_after};
ghost use Rattle.std.specs.Prelude.{◌≡◌, take};

// A line and a column, each counted from 1. A line feed ends a line, and a column is a byte.
#[derive(Clone, Copy, PartialEq, Eq, Debug)]
pub struct Position {
    pub line: usize,
    pub column: usize,
}

// Where the byte at place `at` of the text stands; past the end, where the next byte would stand.
pub fn locate(text: &[u8], at: usize) -> Position
    ensures { result ≡ position_after first_place (take at text.now) }
{
    let mut here = Position { line: 1, column: 1 };
    for byte in &text[..at.min(text.len())] {
        if *byte == b'\n' {
            here.line += 1;
            here.column = 1;
        } else {
            here.column += 1;
        }
    }
    here
}
