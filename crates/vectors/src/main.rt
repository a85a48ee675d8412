// Answers test vectors on standard input, one a line, by calling the proved crates; second/FORMAT.md
// has the form. The second program answers the same vectors, and what the two print is compared.
//
// The one idea: a call is a token made of tokens. It is read whole, from all of its line, then made,
// and its answer printed; a line that is no call is answered as unreadable.
#![tactic(auto)]

ghost use Rattle.std.specs.Prelude.{◌≤◌, length, IfOk};

mod benches;
mod frames;
mod heads;
mod print;
mod runs;
mod stands;
mod token;

use benches::{Fresh, Happening};
use frames::{Strip, Tag};
use heads::Step;
use std::io::{self, Read};
use token::{Token, Tokens};

// A call: what a line asks for. A whole input is too large to go by value: the calls on one are functions, `read` and
// `run`, that lend a room for it.
pub(crate) trait Call: Token {
    fn answer<P: Print>(self, rt: &P) -> io::Result<()>;
}

// The longest line, its newline and some more: a line that doesn't fit ends the program.
const INPUT: usize = 262_144;

fn read_and_answer<C: Call + Drop>(rt: &impl Print, line: Tokens<'_>) -> io::Result<()> {
    match line.whole::<C>() {
        Some(call) => call.answer(rt),
        None => print::unreadable(rt),
    }
}

// The answer to a line. Its first word says what it calls.
fn answer(rt: &impl Print, line: &[u8]) -> io::Result<()> {
    let end = line.iter().position(|b| *b == b' ').unwrap_or(line.len());
    let (word, rest) = line.split_at(end);
    let rest = Tokens::new(rest);
    match word {
        b"step" => read_and_answer::<Step>(rt, rest)?,
        b"tag" => read_and_answer::<Tag>(rt, rest)?,
        b"strip" => read_and_answer::<Strip>(rt, rest)?,
        b"read" => stands::read(rt, rest)?,
        b"write" => read_and_answer::<stands::Write>(rt, rest)?,
        b"fresh" => read_and_answer::<Fresh>(rt, rest)?,
        b"event" => read_and_answer::<Happening>(rt, rest)?,
        b"run" => runs::run(rt, rest)?,
        _ => print::unreadable(rt)?,
    }
    println!(rt; "end")
}

// Answers the lines that stand in the input, and says where what is left of it begins.
fn answer_all(rt: &impl Print, input: &[u8]) -> io::Result<usize>
    ensures { IfOk result (λ from. from ≤ length input.now) }
{
    let mut from = 0;
    for _ in 0..input.len() {
        let rest = &input[from..];
        let Some(end) = rest.iter().position(|b| *b == b'\n') else {
            break;
        };
        answer(rt, &rest[..end])?;
        from += end + 1;
    }
    Ok(from)
}

// A proved loop has to end, and nothing says that the input does: no run uses up so many turns.
fn serve(rt: &impl Print, reader: &mut impl Read, room: &mut [u8]) -> io::Result<()> {
    let mut held = 0;
    for _ in 0..u64::MAX {
        let more = reader.read(&mut room[held..])?;
        if more == 0 {
            break;
        }
        held += more;
        let answered = answer_all(rt, &room[..held])?;
        room.copy_within(answered..held, 0);
        held -= answered;
    }
    // The last line, if it has no newline.
    if 0 < held {
        answer(rt, &room[..held])?;
    }
    Ok(())
}

fn main(rt: HostRuntime) -> io::Result<()> {
    let mut room = [0u8; INPUT];
    serve(&rt, &mut rt.reader(), &mut room)
}
