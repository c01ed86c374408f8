//! Answers words about files in memory, for a host that is not Rattle: a web page, by WebAssembly.
#![tactic(auto)]

ghost use Rattle.std.specs.Prelude.{◌≡◌, ◌≤◌, ◌++◌, take, drop, length, zip};
ghost use Rattle.pam_text.specs.Texts.{cut_lengths};
ghost use Rattle.pam_web.specs.Run.{IsAnswered, filled};

mod answering;
mod entries;
mod memory;
mod texts;

use answering::{Passed, answer};
pub use entries::File;
pub use memory::Memory;
use pam_codes::Out;
use std::alloc::Global;
use texts::Packed;

/// What was answered.
#[repr(C)]
#[derive(Clone, Copy, Drop)]
pub struct Answered {
    /// The number of bytes that the program would have written to standard output.
    pub length: u64,
    /// The number of bytes that it would have written to standard error.
    pub refusal_length: u64,
    /// The exit status.
    pub status: u64,
}

/// Copies as many bytes as there is room for, from a place of the room on.
fn put(from: &[u8], room: &mut [u8], start: usize)
    requires { start ≤ length room.old }
    ensures len { length room.new ≡ length room.old }
    ensures after { room.new ≡ take start room.old ++ filled from.now (drop start room.old) }
{
    let count = from.len().min(room.len() - start);
    room[start..start + count].copy_from_slice(&from[..count]);
}

/// Answers words over files. Each of the three lists of texts is packed: the length of each text, and all bytes, one text after the
/// other. The words begin with the name of the program; each file is a path and its contents. What is written to standard output is put
/// into `text`, and after it what is written to standard error, as far as there is room.
#[unsafe(no_mangle)]
pub extern "C" fn pam_web_answer(
    alloc: Global,
    word_lengths: &[u32],
    word_bytes: &[u8],
    path_lengths: &[u32],
    path_bytes: &[u8],
    file_lengths: &[u32],
    file_bytes: &[u8],
    text: &mut [u8],
    answered: &mut Answered,
)
    ensures { IsAnswered (cut_lengths word_lengths.now word_bytes.now)
        (zip (cut_lengths path_lengths.now path_bytes.now) (cut_lengths file_lengths.now file_bytes.now)) text.old text.new answered.new }
{
    let words = Packed {
        lengths: word_lengths,
        bytes: word_bytes,
    };
    let paths = Packed {
        lengths: path_lengths,
        bytes: path_bytes,
    };
    let contents = Packed {
        lengths: file_lengths,
        bytes: file_bytes,
    };
    let passed = Passed {
        words,
        paths,
        contents,
    };
    let mut out = Out::new(Vec::new(alloc));
    let mut err = Out::new(Vec::new(alloc));
    let status = answer(alloc, passed, &mut out, &mut err);
    let output = out.into_inner();
    let refusal = err.into_inner();
    put(&output, text, 0);
    put(&refusal, text, output.len().min(text.len()));
    answered.length = output.len() as u64;
    answered.refusal_length = refusal.len() as u64;
    answered.status = status as u64;
}
