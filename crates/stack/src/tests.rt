// Stacks with no place and with two, over numbers and over an enum.
use super::Stack;

// A value that is no number.
#[derive(Clone, Copy, PartialEq, Eq, Debug)]
enum Coin {
    Heads,
    Tails,
}

#[test]
fn no_place_refuses_every_value(rt: HostRuntime) {
    let mut places: [u16; 0] = [];
    let mut stack = Stack::new(&mut places);
    assert_eq!(rt; stack.room(), 0);
    assert!(rt; !stack.push(7));
    assert_eq!(rt; stack.len(), 0);
    assert_eq!(rt; stack.pop(), None);
}

#[test]
fn two_places_take_two_values(rt: HostRuntime) {
    let mut places = [0u16; 2];
    let mut stack = Stack::new(&mut places);
    assert!(rt; stack.push(7));
    assert!(rt; stack.push(65535));
    assert!(rt; !stack.push(9));
    assert_eq!(rt; stack.len(), 2);
    assert_eq!(rt; stack.get(0), Some(65535));
    assert_eq!(rt; stack.get(1), Some(7));
    assert_eq!(rt; stack.get(2), None);
    assert_eq!(rt; stack.pop(), Some(65535));
    assert_eq!(rt; stack.pop(), Some(7));
    assert_eq!(rt; stack.pop(), None);
}

#[test]
fn coins_come_back_in_turn(rt: HostRuntime) {
    let mut places = [Coin::Heads; 2];
    let mut stack = Stack::new(&mut places);
    assert!(rt; stack.push(Coin::Tails));
    assert!(rt; stack.push(Coin::Heads));
    assert_eq!(rt; stack.get(1), Some(Coin::Tails));
    assert_eq!(rt; stack.pop(), Some(Coin::Heads));
    assert_eq!(rt; stack.pop(), Some(Coin::Tails));
}
