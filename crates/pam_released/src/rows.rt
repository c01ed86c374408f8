//! Each difference by itself: whether it shows at a physical line, or in the words of a rule from its control on. `findings`
//! asks each of them at each line.

ghost use Rattle.std.specs.Prelude.{◌≡◌, IfOk};
ghost use Rattle.std.specs.Char.{is_ascii_uppercase};
ghost use Rattle.std.specs.List.{list_any};
ghost use Rattle.pam_conf.specs.Remaining.{words_to_come};
ghost use Rattle.pam_released.specs.Findings.{drops_blank, ends_the_file, goes_on_over_blank, has_backslash_blank, has_backslash_comment};
ghost use Rattle.pam_released.specs.Findings.{has_capital, has_empty_name, has_return, is_cut};
ghost use Rattle.pam_released.specs.Lines.{physical_lines};
ghost use Rattle.pam_released.specs.Reader.{state_of};

use crate::lines::{
    are_blank_lines, before_hash, ends_in_backslash, ends_in_blank, goes_on, has_hash,
    is_blank_line, part_begins_in_blank, split_line,
};
use crate::names::{is_no_name, module_name};
use crate::reader::Reader;
use pam_codes::is_name;
use pam_conf::{Words, text_of};
use std::alloc::AllocError;

/// The size of the buffer of 1.5.2 for a logical line, in bytes, with the NUL byte at its end.
const ROOM: usize = 1024;

/// L1: whether `line` has a carriage return before its comment.
pub fn has_return(line: &[u8]) -> bool
    ensures { result ≡ has_return line.now }
{
    before_hash(line).contains(&b'\r')
}

/// L2: whether `line` ends in a backslash, and the first line of `rest`, the bytes after it, is blank or a comment.
pub fn goes_on_over_blank(line: &[u8], rest: &[u8]) -> bool
    ensures { result ≡ goes_on_over_blank line.now (physical_lines rest.now) }
{
    if has_hash(line) || !ends_in_backslash(line) {
        return false;
    }
    match split_line(rest) {
        Some((next, _)) => is_blank_line(next),
        None => false,
    }
}

/// L3: whether spaces or tabs follow the backslash with which `line` goes on.
pub fn has_backslash_blank(line: &[u8]) -> bool
    ensures { result ≡ has_backslash_blank line.now }
{
    goes_on(line) && ends_in_blank(line)
}

/// L4: whether a backslash is directly before the comment of `line`.
pub fn has_backslash_comment(line: &[u8]) -> bool
    ensures { result ≡ has_backslash_comment line.now }
{
    has_hash(line) && ends_in_backslash(before_hash(line))
}

/// L5: whether `line` goes on, and `rest`, the bytes after it, has no line but blank ones and comments.
pub fn ends_the_file(line: &[u8], rest: &[u8]) -> bool
    ensures { result ≡ ends_the_file line.now (physical_lines rest.now) }
{
    goes_on(line) && are_blank_lines(rest)
}

/// L6: whether the first of `words`, a control, has brackets and a capital letter.
pub fn has_capital(words: Words<'_>) -> bool
    ensures { result ≡ has_capital (words_to_come words.entry) }
{
    let Some((control, _)) = words.split_first() else {
        return false;
    };
    match control.split_first() {
        Some((first, inside)) => *first == b'[' && has_capital_letter(inside),
        None => false,
    }
}

fn has_capital_letter(text: &[u8]) -> bool
    ensures { result ≡ list_any is_ascii_uppercase text.now }
{
    text.iter().any(|byte| byte.is_ascii_uppercase())
}

/// L7: whether `line` takes its logical line, of which `used` bytes come before it, past what 1.5.2 has room for.
pub fn is_cut(used: usize, line: &[u8]) -> bool
    ensures { result ≡ is_cut used line.now }
{
    used < ROOM && line.len() >= ROOM - 1 - used
}

/// L8: whether `words`, from a control on, call a module without a name, or a substack. Replaces the contents of `inside`.
pub fn has_empty_name(words: Words<'_>, inside: &mut Vec<u8>) -> Result<bool, AllocError>
    ensures { IfOk result (λ is. is ≡ has_empty_name (words_to_come words.entry)) }
{
    let Some((control, after)) = words.split_first() else {
        return Ok(false);
    };
    let Some((path, _)) = after.split_first() else {
        return Ok(false);
    };
    if is_name(b"include", control) {
        return Ok(false);
    }
    Ok(is_no_name(module_name(text_of(path, inside)?)))
}

/// L9: whether `line` adds a text that begins with a blank to a word in brackets.
pub fn drops_blank(reader: Reader, line: &[u8]) -> bool
    ensures { result ≡ drops_blank (state_of reader) line.now }
{
    reader.is_in_bracket() && part_begins_in_blank(line)
}
