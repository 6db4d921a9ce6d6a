// Short texts, each with its refusal and the place of the token that is wrong, or with Ok where it is read.
use crate::texts::program_of;
use codes::Refusal;
use syntax::WORKING_PLACES;

// What is said of a text: nothing where it is read, else the refusal and the place that is to blame, if one is.
type Verdict = Result<(), (Refusal, Option<usize>)>;

// A text, and what is said of it.
type Row = (&'static [u8], Verdict);

// Reads a text.
fn verdict(text: &[u8]) -> Verdict {
    let mut brackets = [0u16; WORKING_PLACES];
    program_of(text, &mut brackets)
        .map(|_| ())
        .map_err(|error| (error.refusal, error.at))
}

// The numbers of the refusals that the tables name.
const NUMBERS: [(Refusal, u8); 4] = [
    (Refusal::Word, 2),
    (Refusal::Range, 3),
    (Refusal::Bracket, 4),
    (Refusal::Head, 5),
];

#[test]
fn numbers(rt: HostRuntime) {
    for (refusal, number) in NUMBERS {
        assert_eq!(rt; refusal.number(), number, "{refusal}");
    }
}

// Texts whose first three tokens are right or wrong.
const HEADS: [Row; 13] = [
    (b"", Err((Refusal::Head, None))),
    (b" \t\r\n", Err((Refusal::Head, None))),
    (b"()", Err((Refusal::Head, Some(1)))),
    (b"postfix 0", Err((Refusal::Head, Some(0)))),
    (b"(postfix", Err((Refusal::Head, None))),
    (b"(Postfix 0)", Err((Refusal::Head, Some(1)))),
    (b"(postfix)", Err((Refusal::Head, Some(8)))),
    (b"(postfix 8)", Ok(())),
    (b"(postfix 9)", Err((Refusal::Head, Some(9)))),
    (b"(postfix -0)", Err((Refusal::Head, Some(9)))),
    (b"(postfix 00000008)", Ok(())),
    (
        b"(postfix 99999999999999999999)",
        Err((Refusal::Head, Some(9))),
    ),
    (b"(postfix x (foo", Err((Refusal::Head, Some(9)))),
];

#[test]
fn heads(rt: HostRuntime) {
    for (text, expected) in HEADS {
        assert_eq!(rt; verdict(text), expected, "{}", text.escape_ascii());
    }
}

// Numerals at the edges of the range, and words that are almost numerals.
const NUMERALS: [Row; 12] = [
    (b"(postfix 0 2147483647)", Ok(())),
    (b"(postfix 0 2147483648)", Err((Refusal::Range, Some(11)))),
    (b"(postfix 0 -2147483648)", Ok(())),
    (b"(postfix 0 -2147483649)", Err((Refusal::Range, Some(11)))),
    (
        b"(postfix 0 99999999999999999999)",
        Err((Refusal::Range, Some(11))),
    ),
    (b"(postfix 0 -)", Err((Refusal::Word, Some(11)))),
    (b"(postfix 0 --1)", Err((Refusal::Word, Some(11)))),
    (b"(postfix 0 +1)", Err((Refusal::Word, Some(11)))),
    (b"(postfix 0 -0)", Ok(())),
    (b"(postfix 0 08)", Ok(())),
    (b"(postfix 0 1-)", Err((Refusal::Word, Some(11)))),
    (b"(postfix 0 0x1)", Err((Refusal::Word, Some(11)))),
];

#[test]
fn numerals(rt: HostRuntime) {
    for (text, expected) in NUMERALS {
        assert_eq!(rt; verdict(text), expected, "{}", text.escape_ascii());
    }
}

// Names, and words that are almost names.
const WORDS: [Row; 9] = [
    (
        b"(postfix 0 add div eq exec gt lt mul nget pop rem sel sub swap)",
        Ok(()),
    ),
    (b"(postfix 0 postfix)", Err((Refusal::Word, Some(11)))),
    (b"(postfix 0 Add)", Err((Refusal::Word, Some(11)))),
    (b"(postfix 0 swapx)", Err((Refusal::Word, Some(11)))),
    (b"(postfix 0 1\x001)", Err((Refusal::Word, Some(11)))),
    (b"(postfix 0 1\x0b2)", Err((Refusal::Word, Some(11)))),
    (b"(postfix 0 \xa0)", Err((Refusal::Word, Some(11)))),
    (b"(postfix 0 add\xff)", Err((Refusal::Word, Some(11)))),
    (b"(postfix 0 1\x0c)", Err((Refusal::Word, Some(11)))),
];

#[test]
fn words(rt: HostRuntime) {
    for (text, expected) in WORDS {
        assert_eq!(rt; verdict(text), expected, "{}", text.escape_ascii());
    }
}

// Brackets that match or do not, and tokens behind the last one.
const BRACKETS: [Row; 7] = [
    (b"(postfix 0", Err((Refusal::Bracket, None))),
    (b"(postfix 0 (1)", Err((Refusal::Bracket, None))),
    (b"(postfix 0))", Err((Refusal::Bracket, Some(11)))),
    (b"(postfix 0) foo", Err((Refusal::Bracket, Some(12)))),
    (b"(postfix 0) 2147483648", Err((Refusal::Bracket, Some(12)))),
    (b"(postfix 0()(()))", Ok(())),
    (b"\t( postfix\r\n0 add(pop)7 )\n", Ok(())),
];

#[test]
fn brackets(rt: HostRuntime) {
    for (text, expected) in BRACKETS {
        assert_eq!(rt; verdict(text), expected, "{}", text.escape_ascii());
    }
}

// Texts of two wrong tokens.
const MISTAKES: [Row; 3] = [
    (b"(postfix 0 foo 2147483648", Err((Refusal::Word, Some(11)))),
    (
        b"(postfix 0 2147483648 foo",
        Err((Refusal::Range, Some(11))),
    ),
    (b"(postfix 9 foo", Err((Refusal::Head, Some(9)))),
];

#[test]
fn the_first_wrong_token_decides(rt: HostRuntime) {
    for (text, expected) in MISTAKES {
        assert_eq!(rt; verdict(text), expected, "{}", text.escape_ascii());
    }
}
