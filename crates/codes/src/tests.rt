// The number and the word of every refusal and of every fault, and what is shown of two of them.
use super::*;
use std::test::Fail;

#[test]
fn refusals_have_their_numbers_and_words(rt: HostRuntime) {
    let table = [
        (Refusal::Long, 1, "long"),
        (Refusal::Word, 2, "word"),
        (Refusal::Range, 3, "range"),
        (Refusal::Bracket, 4, "bracket"),
        (Refusal::Head, 5, "head"),
        (Refusal::Crowd, 6, "crowd"),
        (Refusal::Image, 21, "image"),
        (Refusal::Book, 22, "book"),
        (Refusal::Full, 23, "full"),
        (Refusal::Link, 24, "link"),
        (Refusal::Space, 25, "space"),
        (Refusal::Bare, 31, "bare"),
        (Refusal::Party, 32, "party"),
        (Refusal::Rest, 33, "rest"),
    ];
    for (refusal, number, word) in table {
        assert_eq!(rt; refusal.number(), number);
        assert_eq!(rt; refusal.word(), word);
    }
}

#[test]
fn faults_have_their_numbers_and_one_word(rt: HostRuntime) {
    let table = [
        (Fault::Arguments, 11),
        (Fault::Underflow, 12),
        (Fault::NoNumeral, 13),
        (Fault::NoSequence, 14),
        (Fault::ZeroDivisor, 15),
        (Fault::Index, 16),
        (Fault::Empty, 17),
        (Fault::SequenceOnTop, 18),
    ];
    for (fault, number) in table {
        assert_eq!(rt; fault.number(), number);
        assert_eq!(rt; fault.word(), "fault");
    }
}

#[test]
fn codes_are_shown_by_number_and_word(rt: HostRuntime) -> Result<(), Fail> {
    let image = Refusal::Image.to_string(rt.alloc())?;
    assert_eq!(rt; image.as_str(), "21 image");
    let fault = Fault::ZeroDivisor.to_string(rt.alloc())?;
    assert_eq!(rt; fault.as_str(), "15 fault");
    Ok(())
}
