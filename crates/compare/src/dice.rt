// Numbers from a seed: always the same ones from the same seed.
ghost use Rattle.std.specs.Prelude.{◌<◌, IfSome, length};

// Numbers at the edges of the range, and some whose sums or products leave it.
const EDGES: [i32; 12] = [
    i32::MIN,
    i32::MAX,
    -1,
    0,
    1,
    i32::MIN + 1,
    i32::MAX - 1,
    65_536,
    -65_536,
    46_341,
    1_073_741_824,
    -1_073_741_825,
];

// A source of numbers.
#[derive(Drop)]
pub(crate) struct Dice {
    state: u64,
}

impl Dice {
    // The numbers that come from a seed.
    pub(crate) fn new(seed: u64) -> Dice {
        Dice { state: seed }
    }

    // The next number.
    pub(crate) fn roll(&mut self) -> u64 {
        self.state = self.state.wrapping_add(0x9e37_79b9_7f4a_7c15);
        let a = (self.state ^ (self.state >> 30)).wrapping_mul(0xbf58_476d_1ce4_e5b9);
        let b = (a ^ (a >> 27)).wrapping_mul(0x94d0_49bb_1331_11eb);
        b ^ (b >> 31)
    }

    // A number below `n`; 0 where there is none. A `requires` in its place would ask more of callers.
    pub(crate) fn below(&mut self, n: usize) -> usize
        ensures { 0 < n → result < n }
    {
        if n == 0 {
            return 0;
        }
        (self.roll() % n as u64) as usize
    }

    // A place among `n`; none where there is none.
    pub(crate) fn place_in(&mut self, n: usize) -> Option<usize>
        ensures { IfSome result (λ place. place < n) }
    {
        if n == 0 {
            return None;
        }
        Some(self.below(n))
    }

    // Any of these.
    pub(crate) fn one_of<T: Copy>(&mut self, items: &[T]) -> T
        requires { 0 < length items.now }
    {
        items[self.below(items.len())]
    }

    // Yes once in `n` times.
    pub(crate) fn once_in(&mut self, n: usize) -> bool {
        self.place_in(n) == Some(0)
    }

    // Yes `n` times in a hundred.
    pub(crate) fn in_hundred(&mut self, n: usize) -> bool {
        self.below(100) < n
    }

    // A number of the language: at an edge, small, middling or any.
    pub(crate) fn number(&mut self) -> i32 {
        match self.below(8) {
            0 => self.one_of(&EDGES),
            1..=4 => self.below(16) as i32 - 3,
            5..=6 => self.below(2_001) as i32 - 1_000,
            _ => (self.below(4_294_967_296) as i64 - 2_147_483_648) as i32,
        }
    }
}
