// Programs and arguments from a seed. The maker keeps in mind which kinds of values would lie on the stack, so that most
// commands find what they take; now and then it adds any command at all.
ghost use Rattle.std.specs.Prelude.{◌<◌, length};

use crate::dice::Dice;
use crate::plan::{Finish, Plan};
use crate::tree::{MOST_COMMANDS, Piece, Source, WORDS, Word};
use std::alloc::{AllocError, Global};
use std::mem;

// The names that take two numbers and leave one.
const OPERATORS: [Word; 8] = [
    Word::Add,
    Word::Sub,
    Word::Mul,
    Word::Div,
    Word::Rem,
    Word::Lt,
    Word::Eq,
    Word::Gt,
];

// The operators that never fault on numbers and are no comparisons.
const FAULTLESS: [Word; 3] = [Word::Add, Word::Sub, Word::Mul];

// What makes programs, arguments and texts: where memory comes from, and a source of numbers.
#[derive(Drop)]
pub(crate) struct Generator {
    pub(crate) heap: Global,
    pub(crate) dice: Dice,
}

impl Generator {
    // What a seed makes.
    pub(crate) fn new(heap: Global, seed: u64) -> Generator {
        Generator {
            heap,
            dice: Dice::new(seed),
        }
    }

    // A program.
    pub(crate) fn program(&mut self) -> Result<Source, AllocError> {
        Maker::new(self.heap, &mut self.dice)?.make()
    }

    // Arguments for a program of so many parameters; now and then another number of them.
    pub(crate) fn arguments(&mut self, parameters: u8) -> Result<Vec<i32>, AllocError> {
        let count = if self.dice.once_in(12) {
            self.dice.below(10)
        } else {
            usize::from(parameters)
        };
        (0..count).map(|_| self.dice.number()).collect(self.heap)
    }
}

// What a group does where it is executed: how many numbers it takes from the top, and how many it leaves there.
#[derive(Clone, Copy, PartialEq)]
struct Effect {
    takes: usize,
    leaves: usize,
}

// The kind of a value; what a group does may be unknown.
#[derive(Clone, Copy, PartialEq)]
enum Kind {
    Number,
    Group(Option<Effect>),
}

// A bracket that is open.
#[derive(Drop)]
enum Bracket {
    // the group is executed as soon as it is closed
    Executed,
    // the group is kept as a value, and counts on so many numbers; values of these kinds are outside it
    Kept { takes: usize, outside: Vec<Kind> },
}

// A program in the making, after a plan.
#[derive(Drop)]
struct Maker<'a> {
    heap: Global,
    dice: &'a mut Dice,
    plan: Plan,
    pieces: Vec<Piece>,
    kinds: Vec<Kind>,
    brackets: Vec<Bracket>,
    // how many commands may still come
    left: usize,
}

impl<'a> Maker<'a> {
    // No commands yet, and the parameters as values.
    fn new(heap: Global, dice: &'a mut Dice) -> Result<Maker<'a>, AllocError> {
        let plan = Plan::drawn(dice);
        Ok(Maker {
            heap,
            dice,
            plan,
            pieces: Vec::new(heap),
            kinds: vec![in heap; Kind::Number; usize::from(plan.parameters)]?,
            brackets: Vec::new(heap),
            left: plan.length,
        })
    }

    // The whole program.
    fn make(mut self) -> Result<Source, AllocError> {
        for _ in 0..MOST_COMMANDS {
            if self.left == 0 {
                break;
            }
            self.turn()?;
        }
        self.left = self
            .left
            .saturating_add(MOST_COMMANDS.saturating_sub(self.plan.length));
        self.close_all()?;
        if self.plan.finish != Finish::Anything {
            self.settle()?;
        }
        Ok(Source {
            parameters: self.plan.parameters,
            pieces: self.pieces,
        })
    }

    // Adds a command or a few.
    fn turn(&mut self) -> Result<(), AllocError> {
        if let Some(n) = self.plan.wild
            && self.dice.once_in(n)
        {
            return self.add_anything();
        }
        if self.dice.in_hundred(self.plan.pushing) {
            return self.push_any_number();
        }
        if self.dice.in_hundred(self.plan.opening) {
            return self.open();
        }
        if self.dice.in_hundred(self.plan.closing) && !self.brackets.is_empty() {
            return self.close();
        }
        let added = match self.dice.below(10) {
            0..=1 => false,
            2..=4 => self.operate()?,
            5 => self.drop_one()?,
            6 => self.exchange()?,
            7 => self.select()?,
            8 => self.fetch()?,
            _ => self.execute()? || self.branch()?,
        };
        if added {
            Ok(())
        } else {
            self.push_any_number()
        }
    }

    // Closes what is open, here and there with one more number behind a bracket.
    fn close_all(&mut self) -> Result<(), AllocError> {
        let brackets = mem::replace(&mut self.brackets, Vec::new(self.heap));
        for (outer, bracket) in brackets.into_iter().enumerate().rev() {
            self.close_bracket(bracket)?;
            if outer > 0 && self.left > 0 && self.dice.once_in(2) {
                self.push_any_number()?;
            }
        }
        Ok(())
    }

    // Brings a number to the top, as far as there is room, and makes one of the numbers there.
    fn settle(&mut self) -> Result<(), AllocError> {
        for _ in 0..self.left {
            match self.kinds.as_slice() {
                [] => self.push_any_number()?,
                [.., Kind::Group(_)] => {
                    let _ = self.execute()? || self.drop_one()?;
                }
                [.., Kind::Number, Kind::Number] if self.plan.finish == Finish::Folded => {
                    self.change(2, 1)?;
                    self.put_one_of(&FAULTLESS)?;
                }
                [.., Kind::Number] => return Ok(()),
            }
        }
        Ok(())
    }

    // Adds a command.
    fn put(&mut self, piece: Piece) -> Result<(), AllocError> {
        self.left = self.left.saturating_sub(1);
        self.pieces.push(piece)?;
        Ok(())
    }

    // Adds any of these names.
    fn put_one_of(&mut self, words: &[Word]) -> Result<(), AllocError>
        requires { 0 < length words.now }
    {
        let word = self.dice.one_of(words);
        self.put(Piece::Word(word))
    }

    // Adds any command, whatever the values are.
    fn add_anything(&mut self) -> Result<(), AllocError> {
        match self.dice.below(10) {
            0..=2 => self.push_any_number(),
            3 => self.open(),
            4 => self.close(),
            5 => self.fetch_beyond(),
            6 => self.push_nothing(),
            _ => self.put_one_of(&WORDS),
        }
    }

    // Adds a numeral.
    fn push_number(&mut self, n: i64) -> Result<(), AllocError> {
        self.kinds.push(Kind::Number)?;
        self.put(Piece::Numeral(n))
    }

    // Adds any numeral.
    fn push_any_number(&mut self) -> Result<(), AllocError> {
        let n = self.dice.number();
        self.push_number(i64::from(n))
    }

    // Whether so many values below the first few are there, and are numbers.
    fn has_numbers(&self, below: usize, count: usize) -> bool {
        self.kinds
            .iter()
            .rev()
            .skip(below)
            .take(count)
            .filter(|kind| **kind == Kind::Number)
            .count()
            == count
    }

    // Takes so many kinds off, and puts so many numbers on.
    fn change(&mut self, takes: usize, leaves: usize) -> Result<(), AllocError> {
        self.kinds.truncate(self.kinds.len().saturating_sub(takes));
        self.kinds
            .resize(self.kinds.len().saturating_add(leaves), Kind::Number)
    }

    // Adds an operator where two numbers are on top; a divisor mostly comes with it, and is not zero.
    fn operate(&mut self) -> Result<bool, AllocError> {
        if !self.has_numbers(0, 2) {
            return Ok(false);
        }
        let word = self.dice.one_of(&OPERATORS);
        if matches!(word, Word::Div | Word::Rem) && self.left > 1 && !self.dice.once_in(8) {
            let n = self.dice.number();
            self.push_number(if n == 0 { 3 } else { i64::from(n) })?;
        }
        self.change(2, 1)?;
        self.put(Piece::Word(word))?;
        Ok(true)
    }

    // Adds `pop` where there is a value.
    fn drop_one(&mut self) -> Result<bool, AllocError> {
        if self.kinds.pop().is_none() {
            return Ok(false);
        }
        self.put(Piece::Word(Word::Pop))?;
        Ok(true)
    }

    // Adds `swap` where there are two values.
    fn exchange(&mut self) -> Result<bool, AllocError> {
        let [.., lower, upper] = self.kinds.as_mut_slice() else {
            return Ok(false);
        };
        mem::swap(lower, upper);
        self.put(Piece::Word(Word::Swap))?;
        Ok(true)
    }

    // Adds `sel` where a number is below two values of one kind.
    fn select(&mut self) -> Result<bool, AllocError> {
        let &[.., Kind::Number, lower, upper] = self.kinds.as_slice() else {
            return Ok(false);
        };
        if lower != upper {
            return Ok(false);
        }
        self.change(3, 0)?;
        self.kinds.push(upper)?;
        self.put(Piece::Word(Word::Sel))?;
        Ok(true)
    }

    // Adds an index and `nget` where the index leads to a number.
    fn fetch(&mut self) -> Result<bool, AllocError> {
        let Some(below) = self.dice.place_in(self.kinds.len()) else {
            return Ok(false);
        };
        if self.left < 2 || !self.has_numbers(below, 1) {
            return Ok(false);
        }
        self.push_number(below as i64 + 1)?;
        self.put(Piece::Word(Word::Nget))?;
        Ok(true)
    }

    // Adds an index just outside the values and `nget`.
    fn fetch_beyond(&mut self) -> Result<(), AllocError> {
        let index = if self.dice.once_in(2) {
            0
        } else {
            (self.kinds.len() as i64).saturating_add(1)
        };
        self.push_number(index)?;
        if self.left > 0 {
            self.put(Piece::Word(Word::Nget))?;
        }
        Ok(())
    }

    // Adds `exec` where a group is on top that finds what it takes.
    fn execute(&mut self) -> Result<bool, AllocError> {
        let &[.., Kind::Group(Some(effect))] = self.kinds.as_slice() else {
            return Ok(false);
        };
        if !self.has_numbers(1, effect.takes) {
            return Ok(false);
        }
        self.change(effect.takes.saturating_add(1), effect.leaves)?;
        self.put(Piece::Word(Word::Exec))?;
        Ok(true)
    }

    // Adds two groups of an operator each, and executes one of them by what number is on top.
    fn branch(&mut self) -> Result<bool, AllocError> {
        if self.left < 6 || !self.has_numbers(0, 3) {
            return Ok(false);
        }
        for _ in 0..2u8 {
            self.put(Piece::Open)?;
            self.put_one_of(&OPERATORS)?;
            self.pieces.push(Piece::Close)?;
        }
        self.put(Piece::Word(Word::Sel))?;
        self.put(Piece::Word(Word::Exec))?;
        self.change(3, 1)?;
        Ok(true)
    }

    // Adds an empty group.
    fn push_nothing(&mut self) -> Result<(), AllocError> {
        let nothing = Effect {
            takes: 0,
            leaves: 0,
        };
        self.kinds.push(Kind::Group(Some(nothing)))?;
        self.put(Piece::Open)?;
        self.pieces.push(Piece::Close)?;
        Ok(())
    }

    // Opens a bracket, or adds an empty group. What is executed at once has its `exec` counted here.
    fn open(&mut self) -> Result<(), AllocError> {
        if self.dice.once_in(6) {
            return self.push_nothing();
        }
        self.put(Piece::Open)?;
        let bracket = if self.left == 0 || self.dice.in_hundred(self.plan.kept) {
            let takes = self.dice.below(3);
            let inside = vec![in self.heap; Kind::Number; takes]?;
            let outside = mem::replace(&mut self.kinds, inside);
            Bracket::Kept { takes, outside }
        } else {
            self.left = self.left.saturating_sub(1);
            Bracket::Executed
        };
        self.brackets.push(bracket)?;
        Ok(())
    }

    // Closes the innermost bracket, if one is open.
    fn close(&mut self) -> Result<(), AllocError> {
        match self.brackets.pop() {
            Some(bracket) => self.close_bracket(bracket),
            None => Ok(()),
        }
    }

    // Closes a bracket that was the innermost.
    fn close_bracket(&mut self, bracket: Bracket) -> Result<(), AllocError> {
        self.pieces.push(Piece::Close)?;
        match bracket {
            Bracket::Executed => self.pieces.push(Piece::Word(Word::Exec))?,
            Bracket::Kept { takes, outside } => {
                let inside = mem::replace(&mut self.kinds, outside);
                let leaves = inside.len();
                let effect = inside
                    .iter()
                    .all(|kind| *kind == Kind::Number)
                    .then_some(Effect { takes, leaves });
                self.kinds.push(Kind::Group(effect))?;
            }
        }
        Ok(())
    }
}
