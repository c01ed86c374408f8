//! The lines of configuration files, with their numbers.

use crate::tests::same::same;
use pam_text::{Source, Text};
use std::alloc::Global;
use std::process::Abort;
use std::test::Fail;

/// A file, and its lines without comments, with continued lines joined.
static ROWS: [(&str, &[(u32, &[u8])]); 9] = [
    (
        "auth required a.so [query=a \\] b] \\\n  debug # note \\\n-auth optional c.so",
        &[
            (1, b"auth required a.so [query=a \\] b]    debug "),
            (3, b"-auth optional c.so"),
        ],
    ),
    ("", &[]),
    ("# all of it", &[]),
    ("a\\\r\nb\\", &[(1, b"a\\\r"), (2, b"b\\")]),
    ("[a # b]\nc", &[(1, b"[a "), (2, b"c")]),
    ("a\\# b\nc", &[(1, b"a c")]),
    ("a\\# b", &[(1, b"a\\")]),
    ("a\\\\\n\\\nb", &[(1, b"a\\  b")]),
    ("# a\n\n#\nb\n", &[(1, b""), (2, b""), (3, b""), (4, b"b")]),
];

/// Asserts that this is the next line of a file.
fn expect_line(
    rt: &impl Abort,
    file: &str,
    text: &mut Text<'_>,
    joined: &mut Vec<u8>,
    wanted: Option<(u32, &[u8])>,
) -> Result<(), Fail> {
    let line = text.next_line(joined)?;
    let found = line.map(|line| (line.number, line.bytes));
    same(rt, file, &found, &wanted);
    Ok(())
}

/// Asserts that a file has these lines.
fn expect_lines(
    rt: &impl Abort,
    alloc: Global,
    file: &str,
    lines: &[(u32, &[u8])],
) -> Result<(), Fail> {
    let mut text = Text::of(Source::of(file.as_bytes())?);
    let mut joined = Vec::new(alloc);
    for line in lines {
        expect_line(rt, file, &mut text, &mut joined, Some(*line))?;
    }
    expect_line(rt, file, &mut text, &mut joined, None)
}

#[test]
fn lines_of_files(rt: HostRuntime) -> Result<(), Fail> {
    for (file, lines) in &ROWS {
        expect_lines(&rt, rt.alloc(), file, lines)?;
    }
    Ok(())
}
