//! The values of a line of `check` that are written part by part.

ghost use Rattle.std.specs.Prelude.{◌≡◌, map, None, slice_index_or};
ghost use Rattle.pam_codes.specs.Out.{Writes};
ghost use Rattle.serde_json.specs.Written.{compact_text};
ghost use Rattle.pam_render.specs.json_text.Check.{answer_object, answers_array, first_way_array, kinds_of, services_array, type_string};
ghost use Rattle.pam_render.specs.json_text.Check.{types_array, way_array};

use super::sentence::{put_said, put_table_said, put_unused_said};
use crate::json_lines::{
    Elements, Member, Written, put_array, put_object, put_quoted, put_readable,
};
use crate::parts::text_at;
use pam_codes::{Device, Out};
use pam_conf::{Kind, Stack};
use pam_drawing::name_of;
use pam_facts::Kinds;
use pam_facts::known::name_of_path;
use pam_findings::host::{Answered, Met, Problem, WayIn};
use pam_findings::misspelled::Misspelled;
use pam_findings::tables::TableProblem;
use pam_report::{UnusedLine, kind_name, path_at};
use std::io::Write;

/// Returns the kinds that are meant, in their order.
fn kinds_of(kinds: Kinds) -> &'static [Kind]
    ensures { result.now ≡ kinds_of kinds }
{
    match (kinds.auth, kinds.account, kinds.password, kinds.session) {
        (false, false, false, false) => &[],
        (false, false, false, true) => &[Kind::Session],
        (false, false, true, false) => &[Kind::Password],
        (false, false, true, true) => &[Kind::Password, Kind::Session],
        (false, true, false, false) => &[Kind::Account],
        (false, true, false, true) => &[Kind::Account, Kind::Session],
        (false, true, true, false) => &[Kind::Account, Kind::Password],
        (false, true, true, true) => &[Kind::Account, Kind::Password, Kind::Session],
        (true, false, false, false) => &[Kind::Auth],
        (true, false, false, true) => &[Kind::Auth, Kind::Session],
        (true, false, true, false) => &[Kind::Auth, Kind::Password],
        (true, false, true, true) => &[Kind::Auth, Kind::Password, Kind::Session],
        (true, true, false, false) => &[Kind::Auth, Kind::Account],
        (true, true, false, true) => &[Kind::Auth, Kind::Account, Kind::Session],
        (true, true, true, false) => &[Kind::Auth, Kind::Account, Kind::Password],
        (true, true, true, true) => &[Kind::Auth, Kind::Account, Kind::Password, Kind::Session],
    }
}

/// Writes the kinds of stacks.
#[derive(Clone, Copy)]
struct TypeElements;

impl Elements<Kind> for TypeElements {
    ghost use Rattle.pam_render.specs.json_text.Check.{type_string};

    ghost element = { λ _ kind. type_string kind };

    fn put_element<W: Write>(&self, kind: &Kind, out: &mut Out<W>) -> Result<(), Device> {
        put_quoted(kind_name(*kind).as_bytes(), out)
    }
}

/// Writes the kinds of the stacks that meet a problem.
fn put_types<W: Write>(met: Option<Met>, out: &mut Out<W>) -> Result<(), Device>
    ensures { Writes W.contents out.old out.new result (compact_text (types_array met)) }
{
    match met {
        Some(met) => put_array(&TypeElements, kinds_of(met.kinds), out),
        None => out.put(b"[]"),
    }
}

/// Writes names of services, by their positions.
#[derive(Clone, Copy)]
struct ServiceElements<'x> {
    services: &'x [&'x [u8]],
}

impl Elements<usize> for ServiceElements<'_> {
    ghost use Rattle.std.specs.Prelude.{map};
    ghost use Rattle.pam_render.specs.json_text.Check.{service_string};

    ghost element = { λ elements position. service_string (map (λ service. service.now) elements.services.now) position };

    fn put_element<W: Write>(&self, position: &usize, out: &mut Out<W>) -> Result<(), Device> {
        put_readable(text_at(self.services, *position), out)
    }
}

/// Writes the first services that meet a problem, at most two.
fn put_services<W: Write>(
    services: &[&[u8]],
    met: Option<Met>,
    out: &mut Out<W>,
) -> Result<(), Device>
    ensures { Writes W.contents out.old out.new result (compact_text (services_array (map (λ service. service.now) services.now) met)) }
{
    let elements = ServiceElements { services };
    let Some(met) = met else {
        return out.put(b"[]");
    };
    match met.second {
        Some(second) => put_array(&elements, &[met.first, second], out),
        None => put_array(&elements, &[met.first], out),
    }
}

/// Writes the answer of a module.
#[tactic(auto, unfolding(crate::specs::json_text::Check::answer_object))]
fn put_answer<W: Write>(stack: &Stack, answer: &Answered, out: &mut Out<W>) -> Result<(), Device>
    ensures { Writes W.contents out.old out.new result (compact_text (answer_object stack.now answer.now)) }
{
    let members: [Member<'_, ()>; 3] = [
        Member::number("number", answer.number as u64),
        Member::readable("module", name_of_path(path_at(stack, answer.number))),
        Member::text("code", name_of(answer.code)),
    ];
    put_object(&members, out)
}

/// Writes answers of the modules of a stack.
#[derive(Clone, Copy)]
struct AnswerElements<'x> {
    stack: &'x Stack,
}

impl Elements<Answered> for AnswerElements<'_> {
    ghost use Rattle.pam_render.specs.json_text.Check.{answer_object};

    ghost element = { λ elements answer. answer_object elements.stack.now answer };

    fn put_element<W: Write>(&self, answer: &Answered, out: &mut Out<W>) -> Result<(), Device> {
        put_answer(self.stack, answer, out)
    }
}

fn put_way<W: Write>(way: &Option<WayIn>, out: &mut Out<W>) -> Result<(), Device>
    ensures { Writes W.contents out.old out.new result (compact_text (way_array way.now)) }
{
    match way {
        Some(way) => put_array(&AnswerElements { stack: &way.stack }, &way.answers, out),
        None => out.put(b"[]"),
    }
}

/// Writes the first way in of a service.
fn put_way_at<W: Write>(
    ways: &[Option<WayIn>],
    service: usize,
    out: &mut Out<W>,
) -> Result<(), Device>
    ensures { Writes W.contents out.old out.new result (compact_text (way_array (slice_index_or ways.now service None))) }
{
    match ways.get(service) {
        Some(way) => put_way(way, out),
        None => out.put(b"[]"),
    }
}

/// Writes the first way in of the first service that meets a problem.
fn put_first_way<W: Write>(
    ways: &[Option<WayIn>],
    met: Option<Met>,
    out: &mut Out<W>,
) -> Result<(), Device>
    ensures { Writes W.contents out.old out.new result (compact_text (first_way_array ways.now met)) }
{
    match met {
        Some(met) => put_way_at(ways, met.first, out),
        None => out.put(b"[]"),
    }
}

/// Writes the first way in of S2, and an empty array for another problem.
fn put_answers<W: Write>(
    ways: &[Option<WayIn>],
    met: Option<Met>,
    problem: Problem,
    out: &mut Out<W>,
) -> Result<(), Device>
    ensures { Writes W.contents out.old out.new result (compact_text (answers_array ways.now met problem)) }
{
    match problem {
        Problem::LetsAnybodyIn { .. } => put_first_way(ways, met, out),
        _ => out.put(b"[]"),
    }
}

/// A value in the line of a finding.
#[derive(Clone, Copy)]
pub(crate) enum FindingValue<'x> {
    /// What is said of a problem at a line.
    Said {
        line: usize,
        problem: Problem,
        word: Option<&'x Misspelled>,
    },
    /// What is said of a problem of a table.
    TableSaid(TableProblem),
    /// What is said of a line that says nothing of the host.
    Unused(&'x UnusedLine),
    /// The kinds of the stacks that meet a problem.
    Types(Option<Met>),
    /// The first services that meet a problem.
    Services {
        services: &'x [&'x [u8]],
        met: Option<Met>,
    },
    /// The first way in of S2.
    Answers {
        ways: &'x [Option<WayIn>],
        met: Option<Met>,
        problem: Problem,
    },
}

impl Written for FindingValue<'_> {
    ghost use Rattle.pam_render.specs.json_text.inner.Written.{finding_value};

    ghost value = { finding_value };

    fn put<W: Write>(&self, out: &mut Out<W>) -> Result<(), Device> {
        match self {
            FindingValue::Said {
                line,
                problem,
                word,
            } => put_said(*line, *problem, *word, out),
            FindingValue::TableSaid(problem) => put_table_said(*problem, out),
            FindingValue::Unused(line) => put_unused_said(line, out),
            FindingValue::Types(met) => put_types(*met, out),
            FindingValue::Services { services, met } => put_services(*services, *met, out),
            FindingValue::Answers { ways, met, problem } => put_answers(*ways, *met, *problem, out),
        }
    }
}
