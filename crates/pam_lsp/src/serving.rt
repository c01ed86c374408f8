//! A session over an input and an output.

ghost use Rattle.std.specs.Prelude.{IfOk, OnOk};
ghost use Rattle.std.specs.Io.KnownBytes.{Appends};
ghost use Rattle.std.specs.List.{flat_map};
ghost use Rattle.pam_lsp.specs.Frames as spec;
ghost use Rattle.pam_lsp.specs.Sessions.{Takes};
ghost use Rattle.pam_lsp.specs.States.{state_view};

use crate::framing::{Front, frame, front_of};
use crate::state::{State, receive};
use pam_cli::System;
use pam_codes::{Device, Out};
use std::alloc::{AllocError, Global};
use std::io::{Read, Write};

/// How many bytes are read at once.
const CHUNK: usize = 4096;

/// Why a session breaks off.
#[derive(Clone, Copy)]
pub enum Fault {
    Memory,
    /// The input cannot be read.
    Input,
    /// The input is no frame.
    Frame,
    /// A message cannot be written.
    Output,
}

impl From<AllocError> for Fault {
    fn from(_error: AllocError) -> Fault {
        Fault::Memory
    }
}

impl From<Device> for Fault {
    fn from(_device: Device) -> Fault {
        Fault::Output
    }
}

/// What is said of a session that breaks off.
fn line_of(fault: Fault) -> &'static str {
    match fault {
        Fault::Memory => "pamcheck: lsp: there is no memory\n",
        Fault::Input => "pamcheck: lsp: the input cannot be read\n",
        Fault::Frame => "pamcheck: lsp: the input has no Content-Length, or one above 16 MiB\n",
        Fault::Output => "pamcheck: lsp: a message cannot be written\n",
    }
}

/// A session: the bytes that were read and are not yet taken, and the state.
#[derive(Drop)]
struct Session {
    bytes: Vec<u8>,
    state: State,
}

/// Writes a message after its length.
fn put_message<W: Write>(alloc: Global, message: &[u8], out: &mut Out<W>) -> Result<(), Fault>
    ensures { OnOk result (Appends (W.contents out.old.inner) (W.contents out.new.inner) (spec.frame message.now)) }
{
    let frame = frame(alloc, message)?;
    out.put(&frame)?;
    Ok(())
}

/// Writes messages, each after its length.
fn put_all<W: Write>(alloc: Global, sent: &[Vec<u8>], out: &mut Out<W>) -> Result<(), Fault>
    ensures { OnOk result (Appends (W.contents out.old.inner) (W.contents out.new.inner) (flat_map (λ m. spec.frame m.items) sent.now)) }
{
    for message in sent {
        put_message(alloc, message.as_slice(), out)?;
    }
    Ok(())
}

/// Writes messages, each after its length, and flushes.
fn send<W: Write>(alloc: Global, sent: &[Vec<u8>], out: &mut Out<W>) -> Result<(), Fault>
    ensures { OnOk result (Appends (W.contents out.old.inner) (W.contents out.new.inner) (flat_map (λ m. spec.frame m.items) sent.now)) }
{
    put_all(alloc, sent, out)?;
    out.finish()?;
    Ok(())
}

/// Takes a message, and sends what it asks for. Returns the exit status where it ends the session.
pub fn take<S: System, W: Write>(
    state: &mut State,
    system: &S,
    alloc: Global,
    message: &[u8],
    out: &mut Out<W>,
) -> Result<Option<u8>, Fault>
    ensures { IfOk result (λ status. Takes (S.told system.now) W.contents (state_view state.old) (state_view state.new) message.now
        out.old out.new status) }
{
    let mut sent = Vec::new(alloc);
    let status = receive(state, system, alloc, message, &mut sent)?;
    send(alloc, &sent, out)?;
    Ok(status)
}

/// Reads more bytes. Returns whether there were any.
fn read_more<R: Read>(bytes: &mut Vec<u8>, input: &mut R) -> Result<bool, Fault> {
    let mut chunk = [0; CHUNK];
    match input.read(&mut chunk) {
        Ok(count) => {
            bytes.extend_from_slice(&chunk[..count])?;
            Ok(count > 0)
        }
        Err(_) => Err(Fault::Input),
    }
}

/// Takes the message at the front, if there is one. Returns whether there was one, and the exit status where it ends the session.
fn take_front<S: System, W: Write>(
    session: &mut Session,
    system: &S,
    alloc: Global,
    out: &mut Out<W>,
) -> Result<(bool, Option<u8>), Fault> {
    match front_of(&session.bytes) {
        Front::Part => Ok((false, None)),
        Front::Broken => Err(Fault::Frame),
        Front::Message { message, rest } => {
            let status = take(&mut session.state, system, alloc, message, out)?;
            let rest = Vec::from_slice(alloc, rest)?;
            session.bytes = rest;
            Ok((true, status))
        }
    }
}

/// Takes messages until one ends the session, or the input ends.
fn run<S: System, R: Read, W: Write>(
    system: &S,
    alloc: Global,
    input: &mut R,
    out: &mut Out<W>,
) -> Result<u8, Fault> {
    let mut session = Session {
        bytes: Vec::new(alloc),
        state: State::new(alloc),
    };
    for _ in 0..u64::MAX {
        let (taken, status) = take_front(&mut session, system, alloc, out)?;
        if let Some(status) = status {
            return Ok(status);
        }
        if !taken && !read_more(&mut session.bytes, input)? {
            return Ok(1);
        }
    }
    Ok(1)
}

/// Serves a client until it says `exit` or its messages end. Returns the exit status: 0 if it said `shutdown` before `exit`, else 1.
pub fn serve<S: System, R: Read, W: Write, V: Write>(
    system: &S,
    alloc: Global,
    input: &mut R,
    out: &mut Out<W>,
    err: &mut Out<V>,
) -> u8 {
    match run(system, alloc, input, out) {
        Ok(status) => status,
        Err(fault) => {
            let _ = err.put(line_of(fault).as_bytes());
            let _ = err.finish();
            1
        }
    }
}
