// What a stack shows of itself.
ghost use Rattle.stack.specs.Held.{held, room};
ghost use Rattle.std.specs.Prelude.{◌≡◌, length, slice_get};

use super::Stack;

impl<'a, T: Copy> Stack<'a, T> {
    // How many values the stack holds.
    pub fn len(&self) -> usize
        ensures { result ≡ length (held self.now) }
    {
        self.len
    }

    // How many values the stack can hold.
    pub fn room(&self) -> usize
        ensures { result ≡ room self.now }
    {
        self.places.len()
    }

    // The value that stands `depth` below the top, if there is one.
    pub fn get(&self, depth: usize) -> Option<T>
        ensures { result ≡ slice_get (held self.now) depth }
    {
        if depth < self.len {
            let at = self.len - 1 - depth;
            let places = &*self.places;
            Some(places[at])
        } else {
            None
        }
    }
}
