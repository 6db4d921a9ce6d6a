// A stack of any copied values over places that are lent to it.
#![tactic(auto)]

ghost use Rattle.std.specs.Prelude.{◌≤◌, length};

mod change;
mod look;
#[cfg(test)]
mod tests;

// What the stack holds stands in the first `len` of the lent places, its top last. The places are lent and their use counted
// here, since the core allocates nothing.
#[derive(Drop)]
pub struct Stack<'a, T> {
    places: &'a mut [T],
    len: usize,
    ghost fits: { len ≤ length places.now },
}
