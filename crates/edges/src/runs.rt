// Programs run from their texts: the order of faults, the edges of numbers, and the deepest and tallest runs.
use crate::texts::{program_of, repeated};
use codes::{Fault, Refusal};
use interpreter::run;
use semantics::{Outcome, Run, Spent, Value};
use std::test::Fail;
use syntax::WORKING_PLACES;

// What the text's program gives on the arguments; a refusal where the text is none.
fn ran(text: &[u8], arguments: &[i32]) -> Result<Run, Refusal> {
    let mut brackets = [0u16; WORKING_PLACES];
    let program = program_of(text, &mut brackets).map_err(|error| error.refusal)?;
    let mut values = [Value::Numeral(0); WORKING_PLACES];
    let mut chains = [0u16; WORKING_PLACES];
    run(&program, arguments, &mut values, &mut chains)
}

// A run that comes to a number or a fault in so many steps.
fn ends(outcome: Outcome, steps: u32) -> Result<Run, Refusal> {
    let spent = Spent { steps };
    Ok(Run { outcome, spent })
}

// A text, arguments, what comes of them, and how many steps it takes.
type Row = (&'static [u8], &'static [i32], Outcome, u32);

// Runs that come to a fault.
const FAULTS: [Row; 20] = [
    (b"(postfix 1 add)", &[], Err(Fault::Arguments), 0),
    (b"(postfix 1 (0) div)", &[], Err(Fault::Arguments), 0),
    (b"(postfix 0 div)", &[], Err(Fault::Underflow), 1),
    (b"(postfix 0 () div)", &[], Err(Fault::Underflow), 2),
    (b"(postfix 0 () 0 div)", &[], Err(Fault::NoNumeral), 3),
    (b"(postfix 0 1 () rem)", &[], Err(Fault::NoNumeral), 3),
    (b"(postfix 1 0 rem)", &[5], Err(Fault::ZeroDivisor), 2),
    (b"(postfix 0 nget)", &[], Err(Fault::Underflow), 1),
    (b"(postfix 0 () nget)", &[], Err(Fault::NoNumeral), 2),
    (b"(postfix 0 () 2 nget)", &[], Err(Fault::Index), 3),
    (b"(postfix 0 () 1 nget)", &[], Err(Fault::NoNumeral), 3),
    (b"(postfix 0 1 nget)", &[], Err(Fault::Index), 2),
    (b"(postfix 2 0 nget)", &[5, 6], Err(Fault::Index), 2),
    (b"(postfix 2 -1 nget)", &[5, 6], Err(Fault::Index), 2),
    (b"(postfix 0 () 1 sel)", &[], Err(Fault::Underflow), 3),
    (b"(postfix 0 () 1 2 sel)", &[], Err(Fault::NoNumeral), 4),
    (b"(postfix 0 exec)", &[], Err(Fault::Underflow), 1),
    (b"(postfix 0 1 exec)", &[], Err(Fault::NoSequence), 2),
    (b"(postfix 0)", &[], Err(Fault::Empty), 0),
    (b"(postfix 1 ())", &[3], Err(Fault::SequenceOnTop), 1),
];

#[test]
fn faults_come_in_order(rt: HostRuntime) {
    for (text, arguments, outcome, steps) in FAULTS {
        let expected = ends(outcome, steps);
        assert_eq!(rt; ran(text, arguments), expected, "{}", text.escape_ascii());
    }
}

// Runs that come to a number.
const NUMBERS: [Row; 11] = [
    (b"(postfix 2 div)", &[-1, -2147483648], Ok(-2147483648), 1),
    (b"(postfix 2 rem)", &[-1, -2147483648], Ok(0), 1),
    (b"(postfix 2 sub)", &[1, -2147483648], Ok(2147483647), 1),
    (b"(postfix 2 mul)", &[65536, 65536], Ok(0), 1),
    (b"(postfix 2 swap lt)", &[-2147483648, 2147483647], Ok(1), 2),
    (b"(postfix 1 () exec)", &[9], Ok(9), 2),
    (b"(postfix 1 (() exec () exec) exec)", &[9], Ok(9), 6),
    (b"(postfix 1 (2 mul) exec)", &[21], Ok(42), 4),
    (
        b"(postfix 1 (1 add) swap (2 mul) exec swap exec)",
        &[20],
        Ok(41),
        10,
    ),
    (b"(postfix 0 (1 (2) exec 3) exec)", &[], Ok(3), 7),
    (b"(postfix 8)", &[1, 2, 3, 4, 5, 6, 7, 8], Ok(1), 0),
];

#[test]
fn numbers_and_sequences_at_their_edges(rt: HostRuntime) {
    for (text, arguments, outcome, steps) in NUMBERS {
        let expected = ends(outcome, steps);
        assert_eq!(rt; ran(text, arguments), expected, "{}", text.escape_ascii());
    }
}

#[test]
fn deepest_and_tallest(rt: HostRuntime) -> Result<(), Fail> {
    let heap = rt.alloc();
    let end = (b")".as_slice(), 1);
    let brackets = repeated(heap, &[(b"(postfix 0 ", 1), (b"(", 255), (b")", 255), end])?;
    assert_eq!(rt;
        ran(brackets.as_slice(), &[]),
        ends(Err(Fault::SequenceOnTop), 1)
    );
    let entered = repeated(
        heap,
        &[(b"(postfix 1 ", 1), (b"(", 127), (b") exec", 127), end],
    )?;
    assert_eq!(rt; ran(entered.as_slice(), &[7]), ends(Ok(7), 254));
    let last = repeated(
        heap,
        &[(b"(postfix 0 5 ", 1), (b"(", 127), (b" exec)", 127), end],
    )?;
    assert_eq!(rt;
        ran(last.as_slice(), &[]),
        ends(Err(Fault::SequenceOnTop), 2)
    );
    let numerals = repeated(heap, &[(b"(postfix 8 ", 1), (b"3 ", 255), end])?;
    let arguments = [1, 2, 3, 4, 5, 6, 7, 8];
    assert_eq!(rt; ran(numerals.as_slice(), &arguments), ends(Ok(3), 255));
    let sums = repeated(
        heap,
        &[(b"(postfix 1 ", 1), (b"1 ", 127), (b"add ", 127), end],
    )?;
    assert_eq!(rt; ran(sums.as_slice(), &[-128]), ends(Ok(-1), 254));
    Ok(())
}

#[test]
fn one_place_less_is_refused(rt: HostRuntime) -> Result<(), Fail> {
    let mut values = [Value::Numeral(0); WORKING_PLACES];
    let mut chains = [0u16; WORKING_PLACES];
    let mut brackets = [0u16; WORKING_PLACES];
    let Ok(program) = program_of(b"(postfix 1)", &mut brackets) else {
        return Err(Fail::new("the text is refused"));
    };
    assert_eq!(rt;
        run(&program, &[], &mut values[1..], &mut chains),
        Err(Refusal::Space)
    );
    assert_eq!(rt;
        run(&program, &[], &mut values, &mut chains[1..]),
        Err(Refusal::Space)
    );
    Ok(())
}
