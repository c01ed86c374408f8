//! Pages of the paths of a stack.

ghost use Rattle.std.specs.Prelude.{◌≤◌, length};

use crate::stacks::{known_of, program_of};
use anyhow::Error;
use pam_codes::Out;
use pam_dispatch::Program;
use pam_page::{LineTexts, Listing, put_page};
use pam_paths::{Cursor, Explorer, Known};

/// The paths from the first on, or those after or before a cursor.
fn listing_of<'a>(
    program: &'a Program,
    known: &'a Known,
    side: &str,
    cursor: &str,
) -> Result<Listing<'a, Known>, Error> {
    if side == "from" {
        return Ok(Listing::Forward(Explorer::start(program, known)));
    }
    let cursor = Cursor::read(cursor.as_bytes())?;
    if side == "after" {
        return Ok(Listing::Forward(Explorer::after(program, known, &cursor)?));
    }
    Ok(Listing::Backward(Explorer::before(program, known, &cursor)?))
}

/// Prints a page of `listing`, of at least one line.
fn print_page(rt: &HostRuntime, listing: &mut Listing<'_, Known>, limit: u32) -> Result<(), Error> {
    let mut text = Vec::new(rt.alloc());
    let texts = LineTexts::new(rt.alloc())?;
    put_page(listing, limit.max(1), texts, &mut Out::new(&mut text))?;
    let text = String::from_utf8(text)?;
    print!(rt; "{text}")?;
    Ok(())
}

/// Prints a page from the first path on, or after or before a cursor.
pub(crate) fn page(rt: &HostRuntime, words: &[&str]) -> Result<(), Error>
    requires { 5 ≤ length words.now }
{
    let program = program_of(rt, words[1])?;
    let known = known_of(&words[5..])?;
    let mut listing = listing_of(&program, &known, words[3], words[4])?;
    print_page(rt, &mut listing, words[2].parse()?)
}
