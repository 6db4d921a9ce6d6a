// The edges of the range, division at both signs, and the zero divisor.
use super::*;

#[test]
fn results_wrap_at_the_edges(rt: HostRuntime) {
    assert_eq!(rt; add(i32::MAX, 1), i32::MIN);
    assert_eq!(rt; add(i32::MIN, -1), i32::MAX);
    assert_eq!(rt; sub(i32::MIN, 1), i32::MAX);
    assert_eq!(rt; sub(0, i32::MIN), i32::MIN);
    assert_eq!(rt; mul(i32::MAX, i32::MAX), 1);
    assert_eq!(rt; mul(65536, 65536), 0);
    assert_eq!(rt; mul(i32::MIN, -1), i32::MIN);
}

#[test]
fn division_rounds_towards_zero(rt: HostRuntime) {
    assert_eq!(rt; div_rem(7, 2), Ok((3, 1)));
    assert_eq!(rt; div_rem(-7, 2), Ok((-3, -1)));
    assert_eq!(rt; div_rem(7, -2), Ok((-3, 1)));
    assert_eq!(rt; div_rem(-7, -2), Ok((3, -1)));
}

#[test]
fn division_at_its_edges(rt: HostRuntime) {
    assert_eq!(rt; div_rem(i32::MIN, -1), Ok((i32::MIN, 0)));
    assert_eq!(rt; div_rem(i32::MIN, i32::MAX), Ok((-1, -1)));
    assert_eq!(rt; div_rem(1, 0), Err(Fault::ZeroDivisor));
}
