// How a stack comes about, grows and shrinks.
ghost use Rattle.stack.specs.Held.{held, memory, room};
ghost use Rattle.stack.specs.Items.{head_of, tail_of};
ghost use Rattle.std.specs.Prelude.{◌≡◌, [], ◌∷◌, length, if◌then◌else◌, nat_lt, slice_set};

use super::Stack;

impl<'a, T: Copy> Stack<'a, T> {
    // An empty stack over the places.
    pub fn new(places: &'a mut [T]) -> Stack<'a, T>
        ensures none { held result ≡ [] }
        ensures room { room result ≡ length places.old }
        ensures same { result.places.ghost_name ≡ places.entry.ghost_name }
        ensures over { memory result ≡ places.old }
    {
        Stack { places, len: 0 }
    }

    // Puts a value on top if there is room, and says whether there was, as a set of the library says of `insert`.
    pub fn push(&mut self, x: T) -> bool
        ensures size { room self.new ≡ room self.old }
        ensures same { self.new.places.ghost_name ≡ self.old.places.ghost_name }
        ensures fits { result ≡ nat_lt (length (held self.old)) (room self.old) }
        ensures items { held self.new ≡ (if result then x ∷ held self.old else held self.old) }
        ensures over { memory self.new ≡ (if result then slice_set (memory self.old) (length (held self.old)) x else memory self.old) }
    {
        if self.len < self.places.len() {
            self.places[self.len] = x;
            self.len += 1;
            true
        } else {
            false
        }
    }

    // Takes the value on top away, if the stack holds any.
    pub fn pop(&mut self) -> Option<T>
        ensures size { room self.new ≡ room self.old }
        ensures same { self.new.places.ghost_name ≡ self.old.places.ghost_name }
        ensures top { result ≡ head_of (held self.old) }
        ensures rest { held self.new ≡ tail_of (held self.old) }
        ensures over { memory self.new ≡ memory self.old }
    {
        if self.len == 0 {
            return None;
        }
        self.len -= 1;
        Some(self.places[self.len])
    }

    // Takes every value away.
    pub fn clear(&mut self)
        ensures size { room self.new ≡ room self.old }
        ensures same { self.new.places.ghost_name ≡ self.old.places.ghost_name }
        ensures none { held self.new ≡ [] }
        ensures over { memory self.new ≡ memory self.old }
    {
        self.len = 0;
    }
}
