// What each name does at its edges, and the order of its faults. Stacks are written with the top last.
use super::*;
use std::process::Abort;
use syntax::Operator;

// A value that is no numeral.
const BODY: Value<u16> = Value::Sequence(7);

// The value that a number is.
fn numeral(number: i32) -> Value<u16> {
    Value::Numeral(number)
}

// A name on a stack gives this answer and leaves this stack.
fn gives(
    rt: &impl Abort,
    name: Name,
    given: &[Value<u16>],
    answer: Result<Option<u16>, Fault>,
    left: &[Value<u16>],
) {
    let mut places = [BODY; 3];
    let mut values = Stack::new(&mut places);
    for value in given {
        assert!(rt; values.push(*value));
    }
    assert_eq!(rt; apply(name, &mut values), answer);
    assert_eq!(rt; values.len(), left.len());
    for value in left.iter().rev() {
        assert_eq!(rt; values.pop(), Some(*value));
    }
}

// A name on a stack stops at this fault and leaves the stack.
fn stops(rt: &impl Abort, name: Name, given: &[Value<u16>], fault: Fault) {
    gives(rt, name, given, Err(fault), given);
}

#[test]
fn operators_look_at_count_then_kind_then_divisor(rt: HostRuntime) {
    for operator in [Operator::Div, Operator::Rem] {
        let name = Name::Operator(operator);
        stops(&rt, name, &[], Fault::Underflow);
        stops(&rt, name, &[BODY], Fault::Underflow);
        stops(&rt, name, &[BODY, numeral(0)], Fault::NoNumeral);
        stops(&rt, name, &[numeral(1), BODY], Fault::NoNumeral);
        stops(&rt, name, &[numeral(1), numeral(0)], Fault::ZeroDivisor);
    }
    gives(
        &rt,
        Name::Operator(Operator::Sub),
        &[BODY, numeral(5), numeral(3)],
        Ok(None),
        &[BODY, numeral(2)],
    );
}

#[test]
fn nget_looks_at_four_conditions(rt: HostRuntime) {
    stops(&rt, Name::Nget, &[], Fault::Underflow);
    stops(&rt, Name::Nget, &[BODY], Fault::NoNumeral);
    stops(&rt, Name::Nget, &[BODY, numeral(-1)], Fault::Index);
    stops(&rt, Name::Nget, &[BODY, numeral(0)], Fault::Index);
    stops(&rt, Name::Nget, &[BODY, numeral(2)], Fault::Index);
    stops(&rt, Name::Nget, &[BODY, numeral(1)], Fault::NoNumeral);
    gives(
        &rt,
        Name::Nget,
        &[numeral(9), BODY, numeral(2)],
        Ok(None),
        &[numeral(9), BODY, numeral(9)],
    );
}

#[test]
fn sel_keeps_the_first_where_the_third_is_zero(rt: HostRuntime) {
    stops(&rt, Name::Sel, &[BODY, BODY], Fault::Underflow);
    stops(
        &rt,
        Name::Sel,
        &[BODY, numeral(2), numeral(1)],
        Fault::NoNumeral,
    );
    gives(
        &rt,
        Name::Sel,
        &[numeral(0), numeral(2), BODY],
        Ok(None),
        &[BODY],
    );
    gives(
        &rt,
        Name::Sel,
        &[numeral(3), numeral(2), BODY],
        Ok(None),
        &[numeral(2)],
    );
    gives(
        &rt,
        Name::Sel,
        &[numeral(-1), BODY, numeral(1)],
        Ok(None),
        &[BODY],
    );
}

#[test]
fn the_others_at_their_edges(rt: HostRuntime) {
    stops(&rt, Name::Pop, &[], Fault::Underflow);
    gives(&rt, Name::Pop, &[BODY], Ok(None), &[]);
    stops(&rt, Name::Swap, &[BODY], Fault::Underflow);
    gives(
        &rt,
        Name::Swap,
        &[numeral(3), numeral(2), BODY],
        Ok(None),
        &[numeral(3), BODY, numeral(2)],
    );
    stops(&rt, Name::Exec, &[], Fault::Underflow);
    stops(&rt, Name::Exec, &[BODY, numeral(7)], Fault::NoSequence);
    gives(
        &rt,
        Name::Exec,
        &[numeral(7), BODY],
        Ok(Some(7)),
        &[numeral(7)],
    );
}

#[test]
fn numbers_at_the_edges(rt: HostRuntime) {
    assert_eq!(rt; compute(Operator::Div, i32::MIN, -1), Ok(i32::MIN));
    assert_eq!(rt; compute(Operator::Rem, i32::MIN, -1), Ok(0));
    assert_eq!(rt; compute(Operator::Lt, i32::MIN, i32::MAX), Ok(1));
    assert_eq!(rt; compute(Operator::Lt, i32::MAX, i32::MAX), Ok(0));
    assert_eq!(rt; compute(Operator::Gt, i32::MIN, i32::MAX), Ok(0));
    assert_eq!(rt; compute(Operator::Gt, 0, -1), Ok(1));
    assert_eq!(rt; compute(Operator::Eq, i32::MIN, i32::MIN), Ok(1));
    assert_eq!(rt; compute(Operator::Eq, i32::MIN, i32::MAX), Ok(0));
}

#[test]
fn results_are_on_top(rt: HostRuntime) {
    let mut places = [BODY; 2];
    let mut values = Stack::new(&mut places);
    assert_eq!(rt; result(&values), Err(Fault::Empty));
    assert!(rt; values.push(numeral(3)));
    assert_eq!(rt; result(&values), Ok(3));
    assert!(rt; values.push(BODY));
    assert_eq!(rt; result(&values), Err(Fault::SequenceOnTop));
}
