//! Writers that write little, return errors, or fail to flush.

ghost use Rattle.std.specs.Prelude.{◌<◌, ◌-◌};

use crate::tests::halting::{End, FULL, Halting, INTERRUPTED, NOTHING};
use crate::tests::same::same;
use pam_codes::{Device, Out, Piece};
use std::alloc::Global;
use std::io;
use std::io::Write;
use std::process::Abort;
use std::test::Fail;

const LINES: &[u8] = b"login auth 1 modules\n0 perm_denied 1=any\nend 1 paths\n";

fn in_one_piece<W: Write>(out: &mut Out<W>) -> Result<(), Device> {
    out.put(LINES)?;
    out.finish()
}

fn in_pieces<W: Write>(out: &mut Out<W>) -> Result<(), Device> {
    out.put(b"login auth ")?;
    out.put_number(1)?;
    out.put_line(&[
        Piece::Bytes(b" modules\n"),
        Piece::Number(0),
        Piece::Bytes(b" perm_denied "),
        Piece::Number(1),
        Piece::Bytes(b"=any\n"),
    ])?;
    out.put(b"")?;
    out.put_line(&[
        Piece::Bytes(b"end "),
        Piece::Number(1),
        Piece::Bytes(b" paths\n"),
    ])?;
    out.finish()
}

/// Writers: the bytes per call and in total, what it does when full, whether it can flush; and whether the whole text
/// is written.
static ROWS: [(usize, usize, End, bool, bool); 8] = [
    (1, 53, NOTHING, true, true),
    (10, 53, NOTHING, true, true),
    (53, 25, FULL, true, false),
    (53, 25, NOTHING, true, false),
    (53, 0, FULL, true, false),
    (53, 0, NOTHING, true, false),
    (53, 0, INTERRUPTED, true, false),
    (53, 53, NOTHING, false, false),
];

/// Asserts that a write succeeded or failed once, and that the written bytes were counted.
fn ended(rt: &impl Abort, out: &Out<&mut Halting>, room: usize, is_ok: bool) {
    same(rt, "taken", &out.taken(), &(room as u64));
    same(rt, "failures", &out.failures(), &if is_ok { 0 } else { 1 });
}

/// Asserts what such a writer takes of the lines, in one piece or in many. A flush counts if it succeeds, and is a
/// failure if not.
fn takes(rt: &impl Abort, alloc: Global, row: &(usize, usize, End, bool, bool), is_one: bool) {
    let (step, room, end, can_flush, is_ok) = *row;
    let mut writer = Halting::new(alloc, step, room, end, can_flush);
    let mut out = Out::new(&mut writer);
    let answer = if is_one {
        in_one_piece(&mut out)
    } else {
        in_pieces(&mut out)
    };
    same(rt, "written", &answer.is_ok(), &is_ok);
    ended(rt, &out, room, is_ok);
    same(rt, "flushes", &out.flushes(), &if is_ok { 1 } else { 0 });
    same(
        rt,
        "bytes",
        &Some(writer.bytes.as_slice()),
        &LINES.get(..room),
    );
}

#[test]
fn writers_that_halt(rt: HostRuntime) {
    for row in &ROWS {
        takes(&rt, rt.alloc(), row, true);
        takes(&rt, rt.alloc(), row, false);
    }
}

fn in_two_calls<W: Write>(out: &mut Out<W>) -> io::Result<(usize, usize)> {
    let first = out.write(LINES)?;
    let second = out.write(b"")?;
    Ok((first, second))
}

#[test]
fn one_inner_call_for_each_write(rt: HostRuntime) {
    let mut writer = Halting::new(rt.alloc(), 10, 53, NOTHING, true);
    let mut out = Out::new(&mut writer);
    let lengths = in_two_calls(&mut out).ok();
    same(&rt, "lengths", &lengths, &Some((10, 0)));
    ended(&rt, &out, 10, true);
    same(&rt, "calls", &writer.calls, &2);
}

fn in_many_calls<W: Write>(out: &mut Out<W>) -> io::Result<()> {
    out.write_all(&LINES[..40])?;
    write!(out, "{}{}", "end 1", " paths\n")
}

#[test]
fn text_in_many_calls(rt: HostRuntime) {
    let mut writer = Halting::new(rt.alloc(), 10, 53, NOTHING, true);
    let mut out = Out::new(&mut writer);
    let answer = in_many_calls(&mut out);
    same(&rt, "written", &answer.is_ok(), &true);
    same(&rt, "taken", &out.taken(), &52);
    same(&rt, "calls", &writer.calls, &6);
}

#[test]
fn device_text(rt: HostRuntime) -> Result<(), Fail> {
    let text = format!(in rt.alloc(); "{Device}")?;
    same(&rt, "text", &text.as_str(), &"the writer failed");
    Ok(())
}
