//! The answer of each command, with writers that write little, return errors, or fail to flush.

ghost use Rattle.std.specs.Prelude.{◌<◌, ◌-◌};

use crate::tests::files::put;
use crate::tests::halting::{End, FULL, FailingOnce, Halting, INTERRUPTED, NOTHING};
use crate::tests::picture::PICTURE;
use crate::tests::same::same;
use pam_codes::Out;
use pam_conf::{Files, Form};
use pam_render::text::answer;
use pam_report::{
    AccessFiles, Fault, Inputs, KnowledgeInputs, SideInputs, TableFiles, fault_status,
};
use pam_text::Texts;
use pam_words::{Request, request};
use std::alloc::Global;
use std::io::Write;
use std::process::Abort;
use std::test::Fail;

/// A command, its inputs, and what it prints.
pub(crate) struct Command {
    pub words: &'static [&'static str],
    login: &'static [u8],
    access: Option<&'static [u8]>,
    time: Option<&'static [u8]>,
    text: &'static [u8],
    status: u8,
}

static SHOW: Command = Command {
    words: &["pamcheck", "show", "login", "auth", "--dir", "d"],
    login: b"auth required a.so [query=a \\] b] \\\n  debug # note \\\n-auth optional c.so",
    access: None,
    time: None,
    text: b"login auth 2 modules
1 login:1 required a.so [query=a \\] b] debug
2 login:3 - optional c.so
",
    status: 0,
};

pub(crate) static DECIDE: Command = Command {
    words: &[
        "pamcheck", "decide", "login", "auth", "success", "auth_err", "--dir", "d",
    ],
    login: b"auth required a.so\nauth sufficient b.so\n",
    access: None,
    time: None,
    text: b"login auth 2 modules
1 a.so success ok positive success
2 b.so auth_err ignore positive success
decision success
",
    status: 0,
};

pub(crate) static PATHS: Command = Command {
    words: &["pamcheck", "paths", "login", "auth", "--dir", "d"],
    login: b"auth [default=5] a.so\n",
    access: None,
    time: None,
    text: b"login auth 1 modules
0 perm_denied 1=any
end 1 paths
",
    status: 0,
};

static PATHS_AS_JSON: Command = Command {
    words: &[
        "pamcheck", "paths", "login", "auth", "--dir", "d", "--limit", "1", "--json",
    ],
    login: b"auth [success=ok default=5] a.so\n",
    access: None,
    time: None,
    text: br#"{"kind":"stack","service":"login","type":"auth","modules":1}
{"kind":"path","cursor":"0","decision":"success","steps":[{"number":1,"module":"a.so","codes":["success"]}]}
{"kind":"page","paths":1,"next":"0","direction":"after"}
"#,
    status: 0,
};

static OUTCOMES: Command = Command {
    words: &["pamcheck", "outcomes", "login", "auth", "--dir", "d"],
    login: b"auth [success=ok default=5] a.so\nauth [default=ignore] b.so\n",
    access: None,
    time: None,
    text: b"login auth 2 modules
success 1 ways, first 0.0: a.so success, b.so any
perm_denied 1 ways, first 1: a.so but:success
total 2 ways
",
    status: 0,
};

static GRAPH: Command = Command {
    words: &[
        "pamcheck", "graph", "login", "auth", "--dir", "d", "--format", "mermaid",
    ],
    login: b"auth [success=ok default=5] a.so\n",
    access: None,
    time: None,
    text: b"---
title: \"login auth\"
---
flowchart LR
  classDef undef stroke-dasharray:4 3
  classDef positive stroke-width:1px
  classDef negative stroke-width:3px
  classDef success stroke-width:4px
  start(( ))
  n0[\"1 a.so<br/>undef perm_denied\"]:::undef
  d0([\"success\"]):::success
  d6{{\"perm_denied\"}}
  start --> n0
  n0 -->|\"success\"| d0
  n0 -->|\"but:success\"| d6
",
    status: 0,
};

static DRAWN: Command = Command {
    words: &[
        "pamcheck", "graph", "login", "auth", "--dir", "d", "--format", "svg",
    ],
    login: b"auth [success=ok default=5] a.so\n",
    access: None,
    time: None,
    text: PICTURE,
    status: 0,
};

static ACCESS: Command = Command {
    words: &[
        "pamcheck", "access", "login", "--access", "t", "--user", "bob",
    ],
    login: b"",
    access: Some(b"-:ALL EXCEPT (wheel) EXCEPT bob:ALL"),
    time: None,
    text: b"denied line 1\n",
    status: 1,
};

/// Compares the stack of `NEW_LOGIN` with this one.
static COMPARE: Command = Command {
    words: &["pamcheck", "compare", "old", "new", "login", "auth"],
    login: b"auth required a.so\n",
    access: None,
    time: None,
    text: b"login auth tells: auth_err becomes perm_denied where a.so auth_err
compared 1 stack: 0 equal, 0 with the same decisions, 1 changed, 0 refused, 0 not known
",
    status: 1,
};

const NEW_LOGIN: &[u8] = b"auth optional a.so\n";

static TIME: Command = Command {
    words: &[
        "pamcheck",
        "time",
        "games",
        "--time",
        "t",
        "--user",
        "alice",
        "--at",
        "2024-05-06T07:59",
    ],
    login: b"",
    access: None,
    time: Some(b"games;*;!waster;Wd0000-2400|Wk1800-0800"),
    text: b"denied line 1\n",
    status: 1,
};

fn commands() -> [&'static Command; 10] {
    [
        &SHOW,
        &DECIDE,
        &PATHS,
        &PATHS_AS_JSON,
        &OUTCOMES,
        &GRAPH,
        &DRAWN,
        &ACCESS,
        &TIME,
        &COMPARE,
    ]
}

/// A configuration with this one file.
fn folder_of(alloc: Global, login: &[u8]) -> Result<Files, Fail> {
    let mut files = Files::new(alloc, Form::Dir);
    put(alloc, &mut files, b"login", login)?;
    Ok(files)
}

/// A side of a comparison, of whose modules it is not known which are there.
fn side_of(alloc: Global, login: &[u8]) -> Result<SideInputs, Fail> {
    Ok(SideInputs {
        files: folder_of(alloc, login)?,
        there: None,
    })
}

/// The two sides of a comparison.
fn sides_of(alloc: Global, login: &[u8]) -> Result<Inputs, Fail> {
    let old = side_of(alloc, login)?;
    let new = side_of(alloc, NEW_LOGIN)?;
    Ok(Inputs::Sides {
        old,
        new,
        facts: None,
        returns: None,
    })
}

/// Returns no tables, no returns file and no policies, with which nothing is known of modules.
fn nothing_known(alloc: Global) -> KnowledgeInputs {
    KnowledgeInputs {
        there: None,
        tables: TableFiles {
            groups: None,
            access: AccessFiles {
                paths: Texts::new(alloc),
                contents: Texts::new(alloc),
            },
            time: None,
        },
        facts: None,
        returns: None,
        policies: Texts::new(alloc),
    }
}

pub(crate) fn inputs(alloc: Global, command: &Command) -> Result<Inputs, Fail> {
    if let Some(table) = command.access {
        let mut tables = Texts::new(alloc);
        tables.push(table)?;
        return Ok(Inputs::Access {
            tables,
            groups: None,
        });
    }
    if let Some(table) = command.time {
        let table = table.to_vec(alloc)?;
        return Ok(Inputs::Time { table });
    }
    if command.words.get(1) == Some(&"compare") {
        return sides_of(alloc, command.login);
    }
    let files = folder_of(alloc, command.login)?;
    match command.words.get(1) {
        Some(&"paths") | Some(&"outcomes") | Some(&"graph") => Ok(Inputs::Paths {
            files,
            given: nothing_known(alloc),
        }),
        _ => Ok(Inputs::Stack(files)),
    }
}

pub(crate) fn asked(
    alloc: Global,
    words: &'static [&'static str],
) -> Result<Request<'static>, Fail> {
    match request(alloc, words) {
        Ok(request) => Ok(request),
        Err(_) => Err(Fail::from("the words were refused")),
    }
}

/// Returns the result of a request: its exit status or its fault.
fn result_of<W: Write>(
    alloc: Global,
    request: &Request<'_>,
    command: &Command,
    writer: &mut W,
) -> Result<Result<u8, Fault>, Fail> {
    let inputs = inputs(alloc, command)?;
    let answered = answer(alloc, request, &inputs, &mut Out::new(writer));
    drop(inputs);
    match answered {
        Ok(status) => Ok(Ok(status.number())),
        Err(fault) => Ok(Err(fault)),
    }
}

/// Returns the result of a command.
fn answered<W: Write>(
    alloc: Global,
    command: &Command,
    writer: &mut W,
) -> Result<Result<u8, Fault>, Fail> {
    let request = asked(alloc, command.words)?;
    let answered = result_of(alloc, &request, command, writer);
    drop(request);
    answered
}

/// Asserts that the whole text is written, then flushed once, whether or not the flush succeeds.
fn flushes_once(rt: &impl Abort, alloc: Global, command: &Command) -> Result<(), Fail> {
    for (step, can_flush) in [(usize::MAX, true), (1, true), (usize::MAX, false)] {
        let mut halting = Halting::new(alloc, step, usize::MAX, NOTHING, can_flush);
        let got = answered(alloc, command, &mut halting)?;
        let wanted = if can_flush {
            Ok(command.status)
        } else {
            Err(Fault::Device)
        };
        same(rt, "the answer", &got, &wanted);
        same(rt, "the text", &halting.bytes.as_slice(), &command.text);
        same(rt, "flushes", &halting.flushes, &1);
        same(rt, "flushed", &halting.flushed, &command.text.len());
    }
    Ok(())
}

/// Asserts that a writer that takes this many bytes in all makes a fault, and that they are a prefix of the text.
fn halts(
    rt: &impl Abort,
    alloc: Global,
    command: &Command,
    room: usize,
    end: End,
) -> Result<(), Fail> {
    let mut halting = Halting::new(alloc, usize::MAX, room, end, true);
    let got = answered(alloc, command, &mut halting)?;
    same(rt, "the answer", &got, &Err(Fault::Device));
    let text = command.text.get(..room);
    same(rt, "the text", &Some(halting.bytes.as_slice()), &text);
    same(rt, "flushes", &halting.flushes, &0);
    Ok(())
}

/// Asserts that the answer ends at each byte that is not taken.
fn halts_at_each_byte(rt: &impl Abort, alloc: Global, command: &Command) -> Result<(), Fail> {
    for room in 0..command.text.len() {
        halts(rt, alloc, command, room, FULL)?;
    }
    halts(rt, alloc, command, 0, NOTHING)?;
    halts(rt, alloc, command, 0, INTERRUPTED)
}

/// Returns how many writes and flushes an answer makes.
fn calls_of(alloc: Global, command: &Command) -> Result<u32, Fail> {
    let mut writer = FailingOnce::new(alloc, u32::MAX);
    let _whole = answered(alloc, command, &mut writer)?;
    Ok(writer.calls)
}

/// Asserts that an answer ends at the call that fails, with a prefix of its text, though later calls would not fail.
fn ends_at(rt: &impl Abort, alloc: Global, command: &Command, call: u32) -> Result<(), Fail> {
    let mut writer = FailingOnce::new(alloc, call);
    let got = answered(alloc, command, &mut writer)?;
    same(rt, "the answer", &got, &Err(Fault::Device));
    same(rt, "calls", &writer.calls, &call.saturating_add(1));
    let text = command.text.get(..writer.bytes.len());
    same(rt, "the text", &Some(writer.bytes.as_slice()), &text);
    Ok(())
}

fn ends_at_each_call(rt: &impl Abort, alloc: Global, command: &Command) -> Result<(), Fail> {
    for call in 0..calls_of(alloc, command)? {
        ends_at(rt, alloc, command, call)?;
    }
    Ok(())
}

#[test]
fn each_answer_is_flushed_once_at_its_end(rt: HostRuntime) -> Result<(), Fail> {
    for command in commands() {
        flushes_once(&rt, rt.alloc(), command)?;
    }
    same(&rt, "the status", &fault_status(&Fault::Device), &5);
    Ok(())
}

#[test]
fn each_answer_halts_where_a_write_fails(rt: HostRuntime) -> Result<(), Fail> {
    for command in commands() {
        halts_at_each_byte(&rt, rt.alloc(), command)?;
    }
    Ok(())
}

#[test]
fn each_answer_ends_at_the_call_that_fails(rt: HostRuntime) -> Result<(), Fail> {
    for command in commands() {
        ends_at_each_call(&rt, rt.alloc(), command)?;
    }
    Ok(())
}
