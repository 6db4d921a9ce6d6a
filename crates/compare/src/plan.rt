// How programs are to be made.
use crate::dice::Dice;
use crate::tree::MOST_COMMANDS;

// What a program is brought to at its end.
#[derive(Clone, Copy, PartialEq)]
pub(crate) enum Finish {
    // whatever there is
    Anything,
    // a number on top
    Number,
    // a number on top that is made of all the numbers there
    Folded,
}

impl Finish {
    // Mostly one of the last two.
    fn drawn(dice: &mut Dice) -> Finish {
        match (dice.once_in(12), dice.once_in(2)) {
            (true, _) => Finish::Anything,
            (false, false) => Finish::Number,
            (false, true) => Finish::Folded,
        }
    }
}

// How a program is to be made.
#[derive(Clone, Copy)]
pub(crate) struct Plan {
    pub(crate) parameters: u8,
    // how many commands it has before it is brought to an end
    pub(crate) length: usize,
    // how often in a hundred turns a numeral comes at once, a bracket is opened, and one is closed
    pub(crate) pushing: usize,
    pub(crate) opening: usize,
    pub(crate) closing: usize,
    // how many in a hundred groups are kept
    pub(crate) kept: usize,
    // once in so many turns any command is added, or never
    pub(crate) wild: Option<usize>,
    pub(crate) finish: Finish,
}

impl Plan {
    // Few commands, each of which mostly finds what it takes.
    fn careful(dice: &mut Dice) -> Plan {
        let parameters = if dice.once_in(3) {
            dice.below(9)
        } else {
            dice.below(4)
        };
        Plan {
            parameters: parameters as u8,
            length: dice.below(60),
            pushing: 20,
            opening: 10,
            closing: 20,
            kept: 60,
            wild: None,
            finish: Finish::drawn(dice),
        }
    }

    // The same with many numbers on the stack, and now and then as many as there can be.
    fn with_many_values(self, dice: &mut Dice) -> Plan {
        let (length, pushing) = if dice.once_in(4) {
            (MOST_COMMANDS, 100)
        } else {
            (MOST_COMMANDS - dice.below(80), 90 + dice.below(11))
        };
        Plan {
            parameters: 8,
            length,
            pushing,
            ..self
        }
    }

    // A plan: short and careful, with some mistakes, long, deep, with many values, or with no care at all.
    pub(crate) fn drawn(dice: &mut Dice) -> Plan {
        let careful = Plan::careful(dice);
        match dice.below(12) {
            0..=3 => careful,
            4..=5 => Plan {
                length: dice.below(80),
                wild: Some(15),
                ..careful
            },
            6 => Plan {
                length: MOST_COMMANDS - dice.below(60),
                ..careful
            },
            7 => Plan {
                length: MOST_COMMANDS - dice.below(236),
                opening: 30 + dice.below(71),
                closing: 4,
                kept: dice.below(101),
                ..careful
            },
            8 => careful.with_many_values(dice),
            _ => Plan {
                length: dice.below(15),
                wild: Some(1),
                finish: Finish::Anything,
                ..careful
            },
        }
    }
}
