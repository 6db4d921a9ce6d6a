// Texts of many commands and bytes, and lent memory of one place less than is needed.
use crate::texts::{program_of, repeated};
use codes::Refusal;
use program::Program;
use reader::read;
use std::alloc::{AllocError, Global};
use std::test::Fail;
use syntax::WORKING_PLACES;

// The head of each of the texts.
const HEAD: &[u8] = b"(postfix 0 ";

// A word so many times, an end, and what is said of the head with them.
type Row = (&'static [u8], usize, &'static [u8], Result<(), Refusal>);

// Texts of as many commands as there may be, or more.
const CROWDS: [Row; 7] = [
    (b"1 ", 255, b")", Ok(())),
    (b"1 ", 256, b")", Err(Refusal::Crowd)),
    (b"pop ", 255, b"add)", Err(Refusal::Crowd)),
    (b"1 ", 255, b"())", Err(Refusal::Crowd)),
    (b"1 ", 255, b"foo)", Err(Refusal::Word)),
    (b"1 ", 255, b"2147483648)", Err(Refusal::Range)),
    (b"(", 256, b"", Err(Refusal::Crowd)),
];

// Texts as long as they may be, or longer.
const LENGTHS: [Row; 4] = [
    (b"0", 4084, b")", Ok(())),
    (b"0", 4085, b")", Err(Refusal::Long)),
    (b"0", 4070, b"2147483648)", Err(Refusal::Range)),
    (b" ", 4085, b")", Err(Refusal::Long)),
];

// Nothing where the text is read, else the refusal.
fn verdict(text: &[u8], places: &mut [u16]) -> Result<(), Refusal> {
    program_of(text, places)
        .map(|_| ())
        .map_err(|error| error.refusal)
}

// The head, a word so many times and an end.
fn text_of(
    heap: Global,
    word: &'static [u8],
    times: usize,
    end: &'static [u8],
) -> Result<Vec<u8>, AllocError> {
    repeated(heap, &[(HEAD, 1), (word, times), (end, 1)])
}

#[test]
fn commands(rt: HostRuntime) -> Result<(), Fail> {
    let mut places = [0u16; WORKING_PLACES];
    for (word, times, end, expected) in CROWDS {
        let text = text_of(rt.alloc(), word, times, end)?;
        let said = verdict(text.as_slice(), &mut places);
        assert_eq!(rt; said, expected, "{}, {times} times", word.escape_ascii());
    }
    Ok(())
}

#[test]
fn depth(rt: HostRuntime) -> Result<(), Fail> {
    let mut places = [0u16; WORKING_PLACES];
    let text = repeated(rt.alloc(), &[(HEAD, 1), (b"(", 255), (b")", 256)])?;
    assert_eq!(rt; verdict(text.as_slice(), &mut places), Ok(()));
    Ok(())
}

#[test]
fn bytes(rt: HostRuntime) -> Result<(), Fail> {
    let longest = text_of(rt.alloc(), b"0", 4084, b")")?;
    assert_eq!(rt; longest.len(), 4096);
    let mut places = [0u16; WORKING_PLACES];
    for (word, times, end, expected) in LENGTHS {
        let text = text_of(rt.alloc(), word, times, end)?;
        let said = verdict(text.as_slice(), &mut places);
        assert_eq!(rt; said, expected, "{}, {times} times", word.escape_ascii());
    }
    Ok(())
}

#[test]
fn memory(rt: HostRuntime) {
    let mut enough = [0u16; 264];
    let mut short = [0u16; 263];
    assert_eq!(rt; verdict(b"(postfix 0)", &mut enough), Ok(()));
    assert_eq!(rt; verdict(b"(postfix 0)", &mut short), Err(Refusal::Space));
    assert_eq!(rt; verdict(b"foo", &mut short), Err(Refusal::Space));
}

#[test]
fn a_refusal_leaves_the_record(rt: HostRuntime) {
    let mut places = [0u16; WORKING_PLACES];
    let mut program = Program::new();
    assert!(rt; read(b"(postfix 2 1 (add) exec)", &mut places, &mut program).is_ok());
    assert!(rt; read(b"(postfix 1 pop", &mut places, &mut program).is_err());
    assert_eq!(rt; program.parameters(), 2);
    assert_eq!(rt; program.commands(), 4);
    assert_eq!(rt; program.sequences(), 1);
}
