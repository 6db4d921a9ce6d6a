// What is printed, and what is left where it does not fit.
use crate::texts::program_of;
use codes::Refusal;
use printer::print;
use syntax::WORKING_PLACES;

// How many bytes are lent to print a standard form into.
const ROOM: usize = 64;

// What is printed of a text's program into `out`, with so many places lent.
fn printed(text: &[u8], places: &mut [u16], out: &mut [u8]) -> Result<usize, Refusal> {
    let mut brackets = [0u16; WORKING_PLACES];
    let program = program_of(text, &mut brackets).map_err(|error| error.refusal)?;
    print(&program, places, out)
}

// Texts, and what is printed of their programs.
const FORMS: [(&[u8], &[u8]); 6] = [
    (b"(postfix 0)", b"(postfix 0)"),
    (
        b" ( postfix 02 1 -007 add(swap () exec))",
        b"(postfix 2 1 -7 add (swap () exec))",
    ),
    (
        b"(postfix 0 -0 -2147483648 2147483647)",
        b"(postfix 0 0 -2147483648 2147483647)",
    ),
    (b"(postfix 8()())", b"(postfix 8 () ())"),
    (b"(postfix 1(((1))))", b"(postfix 1 (((1))))"),
    (b"(postfix 0\n000\n10 100)", b"(postfix 0 0 10 100)"),
];

#[test]
fn standard_forms(rt: HostRuntime) {
    for (text, standard) in FORMS {
        let mut places = [0u16; WORKING_PLACES];
        let mut out = [7u8; ROOM];
        let len = printed(text, &mut places, &mut out);
        assert_eq!(rt; len, Ok(standard.len()), "{}", text.escape_ascii());
        let all: &[u8] = &out;
        let behind = all.strip_prefix(standard);
        let is_printed = behind.is_some_and(|behind| behind.iter().all(|b| *b == 7));
        assert!(rt; is_printed, "{}", text.escape_ascii());
    }
}

#[test]
fn short_memory_writes_nothing(rt: HostRuntime) {
    let mut enough = [0u16; 264];
    let mut short = [0u16; 263];
    let mut out = [7u8; 14];
    assert_eq!(rt;
        printed(b"(postfix 0 1 2)", &mut enough, &mut out),
        Err(Refusal::Space)
    );
    assert!(rt; out == [7u8; 14]);
    assert_eq!(rt;
        printed(b"(postfix 0 12)", &mut short, &mut out),
        Err(Refusal::Space)
    );
    assert!(rt; out == [7u8; 14]);
    assert_eq!(rt; printed(b"(postfix 0 12)", &mut enough, &mut out), Ok(14));
    let all: &[u8] = &out;
    assert!(rt; all == b"(postfix 0 12)".as_slice());
}
