// Arithmetic of its own make: numbers of 32 bits held in 64, and brought back into range after each operation.
ghost use Rattle.std.specs.Prelude.{pos, negsuc, ◌≤ℤ◌};

// How many numbers there are.
const NUMBERS: i64 = 4_294_967_296;

// The first number above the range.
const ABOVE: i64 = NUMBERS / 2;

// The two sides of an operator.
#[derive(Clone, Copy)]
pub(crate) struct Pair {
    pub(crate) left: i64,
    pub(crate) right: i64,
}

impl Pair {
    // The sum.
    pub(crate) fn sum(self) -> i64 {
        wrap(self.left.wrapping_add(self.right))
    }

    // The left side less the right.
    pub(crate) fn difference(self) -> i64 {
        wrap(self.left.wrapping_sub(self.right))
    }

    // The product.
    pub(crate) fn product(self) -> i64 {
        wrap(self.left.wrapping_mul(self.right))
    }

    // The quotient rounded towards zero, from the sizes of both sides and their signs; none where the right side is zero.
    pub(crate) fn quotient(self) -> Option<i64> {
        if self.right == 0 {
            return None;
        }
        let size = self.left.unsigned_abs() / self.right.unsigned_abs();
        let residue = (size % NUMBERS as u64) as i64;
        if (self.left < 0) == (self.right < 0) {
            Some(wrap(residue))
        } else {
            Some(wrap(-residue))
        }
    }

    // What the quotient leaves of the left side; none where the right side is zero.
    pub(crate) fn remainder(self) -> Option<i64> {
        let whole = self.quotient()?.wrapping_mul(self.right);
        Some(wrap(self.left.wrapping_sub(whole)))
    }

    // Whether the left side is less than the right, as a number.
    pub(crate) fn less(self) -> i64 {
        i64::from(self.left < self.right)
    }

    // Whether the sides are equal, as a number.
    pub(crate) fn equal(self) -> i64 {
        i64::from(self.left == self.right)
    }

    // Whether the left side is greater than the right, as a number.
    pub(crate) fn greater(self) -> i64 {
        i64::from(self.left > self.right)
    }
}

// The number in range that differs from `n` by a multiple of 2^32.
fn wrap(n: i64) -> i64
    ensures { (negsuc 2147483647 ≤ℤ result) × (result ≤ℤ pos 2147483647) }
{
    let residue = n.rem_euclid(NUMBERS);
    if residue < ABOVE {
        residue
    } else {
        residue - NUMBERS
    }
}
