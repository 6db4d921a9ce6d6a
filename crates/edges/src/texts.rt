// Texts in which some part comes many times, and the programs of texts.
use program::Program;
use reader::{ReadError, read};
use std::alloc::{AllocError, Global};

// The parts in their order, each so many times.
pub(crate) fn repeated(heap: Global, parts: &[(&[u8], usize)]) -> Result<Vec<u8>, AllocError> {
    let mut text = Vec::new(heap);
    for (part, times) in parts {
        text.extend_from_slice(part.repeat(heap, *times)?.as_slice())?;
    }
    Ok(text)
}

// The program that a text says, read with the places that are lent.
pub(crate) fn program_of(text: &[u8], places: &mut [u16]) -> Result<Program, ReadError> {
    let mut program = Program::new();
    read(text, places, &mut program)?;
    Ok(program)
}
