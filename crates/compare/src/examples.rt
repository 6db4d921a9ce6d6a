// Small programs with known values.
use crate::answer::{Answer, FaultNumber, Verdict};
use crate::verdicts::Case;

// A text, its arguments, the number that the run gives or the number of its fault, and how many steps it takes.
#[derive(Clone, Copy)]
pub(crate) struct Example(&'static [u8], &'static [i32], Result<i64, u8>, u32);

impl Example {
    // The text and the arguments.
    pub(crate) fn case(self) -> Case<'static> {
        Case {
            text: self.0,
            arguments: self.1,
        }
    }

    // What is known of them.
    pub(crate) fn verdict(self) -> Verdict {
        Ok(Answer {
            ending: self.2.map_err(FaultNumber),
            steps: self.3,
        })
    }
}

// The table.
pub(crate) const EXAMPLES: [Example; 73] = [
    Example(b"(postfix 0 1 2 3)", &[], Ok(3), 3),
    Example(b"(postfix 0 1 2 3 pop)", &[], Ok(2), 4),
    Example(b"(postfix 0 1 2 swap 3 pop)", &[], Ok(1), 5),
    Example(b"(postfix 0 1 swap)", &[], Err(12), 2),
    Example(b"(postfix 0 1 pop pop)", &[], Err(12), 3),
    Example(b"(postfix 0 1 pop)", &[], Err(17), 2),
    Example(b"(postfix 2)", &[3, 4], Ok(3), 0),
    Example(b"(postfix 2 swap)", &[3, 4], Ok(4), 1),
    Example(b"(postfix 3 pop swap)", &[3, 4, 5], Ok(5), 2),
    Example(b"(postfix 2 swap)", &[3], Err(11), 0),
    Example(b"(postfix 1 swap)", &[3], Err(12), 1),
    Example(b"(postfix 2 3 sub swap pop)", &[7, 8], Ok(4), 4),
    Example(b"(postfix 0 4 7 sub)", &[], Ok(-3), 3),
    Example(b"(postfix 1 4 sub)", &[3], Ok(-1), 2),
    Example(b"(postfix 1 4 add 5 mul 6 sub 7 div)", &[3], Ok(4), 8),
    Example(
        b"(postfix 5 add mul sub swap div)",
        &[7, 6, 5, 4, 3],
        Ok(-20),
        5,
    ),
    Example(b"(postfix 3 4000 swap pop add)", &[300, 20, 1], Ok(4020), 4),
    Example(b"(postfix 2 add 2 div)", &[3, 7], Ok(5), 3),
    Example(b"(postfix 1 3 div)", &[17], Ok(5), 2),
    Example(b"(postfix 1 3 rem)", &[17], Ok(2), 2),
    Example(b"(postfix 2 div)", &[2, -7], Ok(-3), 1),
    Example(b"(postfix 2 rem)", &[2, -7], Ok(-1), 1),
    Example(b"(postfix 1 4 lt)", &[3], Ok(1), 2),
    Example(b"(postfix 1 4 lt)", &[5], Ok(0), 2),
    Example(b"(postfix 1 4 lt 10 add)", &[3], Ok(11), 4),
    Example(b"(postfix 1 4 gt)", &[5], Ok(1), 2),
    Example(b"(postfix 1 4 gt)", &[4], Ok(0), 2),
    Example(b"(postfix 1 4 eq)", &[4], Ok(1), 2),
    Example(b"(postfix 1 4 eq)", &[5], Ok(0), 2),
    Example(b"(postfix 1 4 mul add)", &[3], Err(12), 3),
    Example(b"(postfix 2 4 sub div)", &[4, 5], Err(15), 3),
    Example(b"(postfix 1 1 add)", &[2147483647], Ok(-2147483648), 2),
    Example(b"(postfix 2 div)", &[-1, -2147483648], Ok(-2147483648), 1),
    Example(b"(postfix 2 rem)", &[-1, -2147483648], Ok(0), 1),
    Example(b"(postfix 2 1 nget)", &[4, 5], Ok(4), 2),
    Example(b"(postfix 2 2 nget)", &[4, 5], Ok(5), 2),
    Example(b"(postfix 2 3 nget)", &[4, 5], Err(16), 2),
    Example(b"(postfix 2 0 nget)", &[4, 5], Err(16), 2),
    Example(b"(postfix 1 2 nget)", &[5], Err(16), 2),
    Example(b"(postfix 1 (2 mul) 1 nget)", &[3], Err(13), 3),
    Example(b"(postfix 1 (2 mul) 2 nget)", &[3], Ok(3), 3),
    Example(b"(postfix 1 1 nget mul)", &[5], Ok(25), 3),
    Example(
        b"(postfix 4 4 nget 5 nget mul mul swap 4 nget mul add add)",
        &[3, 4, 5, 2],
        Ok(25),
        12,
    ),
    Example(b"(postfix 1 (2 mul) exec)", &[7], Ok(14), 4),
    Example(b"(postfix 0 (0 swap sub) 7 swap exec)", &[], Ok(-7), 7),
    Example(
        b"(postfix 0 (7 swap exec) (0 swap sub) swap exec)",
        &[],
        Ok(-7),
        10,
    ),
    Example(b"(postfix 0 (2 mul))", &[], Err(18), 1),
    Example(b"(postfix 0 3 (2 mul) gt)", &[], Err(13), 3),
    Example(b"(postfix 0 3 exec)", &[], Err(14), 2),
    Example(
        b"(postfix 1 ((3 nget swap exec) (2 mul swap exec) swap) (5 sub) swap exec exec)",
        &[7],
        Ok(9),
        18,
    ),
    Example(
        b"(postfix 2 (2 (3 mul add) exec) 1 swap exec sub)",
        &[4, 5],
        Ok(-3),
        11,
    ),
    Example(b"(postfix 0 (1) (2 3 4) swap exec)", &[], Ok(1), 5),
    Example(b"(postfix 0 (1 2) (3 4) swap exec)", &[], Ok(2), 6),
    Example(b"(postfix 0 (1 2) (3 4 swap) exec)", &[], Ok(3), 6),
    Example(b"(postfix 1 2 3 sel)", &[1], Ok(2), 3),
    Example(b"(postfix 1 2 3 sel)", &[0], Ok(3), 3),
    Example(b"(postfix 1 2 3 sel)", &[17], Ok(2), 3),
    Example(b"(postfix 1 4 5 sel)", &[0], Ok(5), 3),
    Example(b"(postfix 0 (2 mul) 3 4 sel)", &[], Err(13), 4),
    Example(
        b"(postfix 4 lt (add) (mul) sel exec)",
        &[3, 4, 5, 6],
        Ok(30),
        6,
    ),
    Example(
        b"(postfix 4 lt (add) (mul) sel exec)",
        &[4, 3, 5, 6],
        Ok(11),
        6,
    ),
    Example(
        b"(postfix 1 1 nget 0 lt (0 swap sub) () sel exec)",
        &[-7],
        Ok(7),
        11,
    ),
    Example(
        b"(postfix 1 1 nget 0 lt (0 swap sub) () sel exec)",
        &[6],
        Ok(6),
        8,
    ),
    Example(
        b"(postfix 0 10 (swap 2 mul sub) 1 swap exec)",
        &[],
        Ok(-19),
        9,
    ),
    Example(b"(postfix 0 (5 (2 mul) exec) 3 swap)", &[], Err(18), 3),
    Example(b"(postfix 0 (() exec) exec)", &[], Err(17), 4),
    Example(b"(postfix 0 2 3 1 add mul sel)", &[], Err(12), 6),
    Example(b"(postfix 0 2 3 1 (add) (mul) sel)", &[], Err(18), 6),
    Example(b"(postfix 0 2 3 1 (add) (mul) sel exec)", &[], Ok(5), 8),
    Example(b"(postfix 0 0 (2 3 add) 4 sel exec)", &[], Err(14), 5),
    Example(b"(postfix 0 1 (2 3 add) 4 sel exec)", &[], Ok(5), 8),
    Example(
        b"(postfix 0 (5 6 lt) (2 3 add) 4 sel exec)",
        &[],
        Err(13),
        4,
    ),
    Example(
        b"(postfix 0 (swap exec swap exec) (1 sub) swap (2 mul) swap 3 swap exec)",
        &[],
        Ok(5),
        16,
    ),
];
