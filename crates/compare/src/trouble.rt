// What keeps a comparison from being made at all, and what stops a reading or a run.
use std::alloc::{AllocError, AllocFailed};
use std::fmt;

// Why no answer came about. None of these is an answer of the language.
#[derive(Clone, Copy)]
pub(crate) enum Trouble {
    // there is no memory
    Memory,
    // brackets do not match where a tree is made
    Brackets,
    // calls nest deeper than a program has commands
    Depth,
}

// No memory was to be had.
impl From<AllocError> for Trouble {
    fn from(_e: AllocError) -> Trouble {
        Trouble::Memory
    }
}

// No memory was to be had for a value.
impl<T: Drop> From<AllocFailed<T>> for Trouble {
    fn from(_e: AllocFailed<T>) -> Trouble {
        Trouble::Memory
    }
}

// A line for people.
impl fmt::Display for Trouble {
    fn fmt<W: fmt::Write>(&self, f: &mut fmt::Formatter<W>) -> fmt::Result {
        f.write_str(match self {
            Trouble::Memory => "there is no memory",
            Trouble::Brackets => "brackets do not match where a tree is made",
            Trouble::Depth => "calls nest deeper than a program has commands",
        })
    }
}

// Why a reading, a run or a comparison stops: there is something to say against it, or there is no answer at all.
#[derive(Drop)]
pub(crate) enum Stop<E> {
    Said(E),
    Trouble(Trouble),
}

// Trouble in a part stops the whole.
impl<E> From<Trouble> for Stop<E> {
    fn from(trouble: Trouble) -> Stop<E> {
        Stop::Trouble(trouble)
    }
}

// A lack of memory stops the whole.
impl<E> From<AllocError> for Stop<E> {
    fn from(e: AllocError) -> Stop<E> {
        Stop::Trouble(e.into())
    }
}

// A value for which there is no memory stops the whole.
impl<T: Drop, E> From<AllocFailed<T>> for Stop<E> {
    fn from(e: AllocFailed<T>) -> Stop<E> {
        Stop::Trouble(e.into())
    }
}

// What came of a reading or a run: a value, or what is said against it; unless there is no answer at all.
pub(crate) fn answer_of<T, E>(outcome: Result<T, Stop<E>>) -> Result<Result<T, E>, Trouble> {
    match outcome {
        Ok(value) => Ok(Ok(value)),
        Err(Stop::Said(said)) => Ok(Err(said)),
        Err(Stop::Trouble(trouble)) => Err(trouble),
    }
}
