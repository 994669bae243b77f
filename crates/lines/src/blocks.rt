//! The input of a replay goes by in blocks of 65,536 bytes: whole lines, and spaces from the last of them to the block's end (the last block
//! ends anywhere). Each line is answered by one line.
ghost use Rattle.std.specs.Prelude.{OnOk};
ghost use Rattle.lines.specs.Put.{Same};
ghost use Rattle.lines.specs.Output.{Grows};

use crate::{Numbers, Room, line, text};
use std::alloc::AllocError;
use std::io;
use std::io::{Read, Write};

/// How many bytes a block has.
const BLOCK: u64 = 65536;

/// What a program answers to a line. Nothing is asked of what it leaves in the room.
pub trait Answers {
    /// Says the answer to a line, by its letter and its numbers.
    ///
    /// # Errors
    /// [`AllocError`] where there is no memory.
    fn answer(&self, letter: u8, numbers: Numbers, said: &mut Room<u64>) -> Result<(), AllocError>;
}

/// What a program answers to a line, said in the memory that the room has: whoever lends it knows that the answer stands there. What implements it has
/// [`Answers`], and so serves [`replay`].
pub trait AnswersInPlace {
    /// Says the answer to a line, by its letter and its numbers.
    ///
    /// # Errors
    /// [`AllocError`] where there is no memory.
    fn answer(&self, letter: u8, numbers: Numbers, said: &mut Room<u64>) -> Result<(), AllocError>
        ensures { Same said.old.memory said.new.memory };
}

impl<A: AnswersInPlace> Answers for A {
    fn answer(&self, letter: u8, numbers: Numbers, said: &mut Room<u64>) -> Result<(), AllocError> {
        AnswersInPlace::answer(self, letter, numbers, said)
    }
}

/// Answers the lines of the whole input, each by one line, behind what the output has. `space` holds one block after the other.
///
/// # Errors
/// What the input, the output or an answer fails with. The lines that came before a failed read are answered first.
pub fn replay<R: Read, W: Write, A: Answers>(
    input: &mut R,
    out: &mut W,
    space: &mut Vec<u8>,
    answers: &A,
) -> io::Result<()>
    ensures { OnOk result (Grows (W.contents out.old) (W.contents out.new)) }
{
    for _ in 0..100000 {
        space.clear();
        let read = input.by_ref().take(BLOCK).read_to_end(space);
        answer_block(space.as_slice(), out, answers)?;
        read?;
        if space.is_empty() {
            break;
        }
    }
    out.flush()
}

/// The lines of a block, each answered by one.
fn answer_block<W: Write, A: Answers>(block: &[u8], out: &mut W, answers: &A) -> io::Result<()>
    ensures { OnOk result (Grows (W.contents out.old) (W.contents out.new)) }
{
    let mut numbers = [0u64; 8200];
    let mut memory = [0u64; 4200];
    let mut bytes = [0u8; 65536];
    let mut at = 0;
    // No `for`: the place moves by whole lines.
    while at < block.len() {
        let letter = block[at];
        if letter == b' ' {
            break;
        }
        let mut args = Room::new(&mut numbers);
        at = line(block, at, &mut args);
        let mut said = Room::new(&mut memory);
        answers.answer(letter, Numbers::of(args.filled(), 0), &mut said)?;
        let mut shown = Room::new(&mut bytes);
        text(said.filled(), &mut shown);
        out.write_all(shown.filled())?;
    }
    Ok(())
}
