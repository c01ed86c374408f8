//! What is said of problems, as strings.

ghost use Rattle.std.specs.Prelude.{◌≡◌, [], ◌∷◌, None};
ghost use Rattle.pam_codes.specs.Out.{Writes};
ghost use Rattle.pam_render.specs.json_lines.Line.{joined};
ghost use Rattle.pam_findings.specs.misspelled.MisspelledView.{misspelled_view};
ghost use Rattle.pam_render.specs.parts.CheckNames.{word_of};
ghost use Rattle.pam_render.specs.sentences.NamingView.{naming_view};
ghost use Rattle.serde_json.specs.Written.{compact_text};
ghost use Rattle.pam_render.specs.json_text.Sentences.{argument_parts, fault_parts, module_parts, named_parts, naming_parts};
ghost use Rattle.pam_render.specs.json_text.Sentences.{other_parts, plain_parts, problem_parts, released_parts, said_parts, subject_name};
ghost use Rattle.pam_render.specs.json_text.Sentences.{table_difference_parts, table_parts, unused_parts};
ghost use Rattle.pam_report.specs.Unused.{unused_view};

use crate::json_lines::{Part, put_joined};
use crate::sentences::{
    Naming, UNTOLD_MODULE, UNUSED, argument_naming, dead_naming, hidden_text, idle_naming,
    naming_for, naming_of, naming_of_module, plain_sentence, problem_sentence,
    table_fault_sentence, time_fault_sentence,
};
use pam_codes::{Device, Out};
use pam_conf::{FaultKind, Kind};
use pam_findings::host::{ArgumentProblem, Problem};
use pam_findings::misspelled::Misspelled;
use pam_findings::tables::TableProblem;
use pam_released::Difference;
use pam_released::tables::TableDifference;
use pam_report::{UnusedLine, kind_name, stack_of};
use std::io::Write;

fn put_bytes<W: Write>(text: &[u8], out: &mut Out<W>) -> Result<(), Device>
    ensures { Writes W.contents out.old out.new result (compact_text (joined (text.now ∷ []))) }
{
    put_joined(&[Part(text)], out)
}

fn put_one<W: Write>(text: &str, out: &mut Out<W>) -> Result<(), Device>
    ensures { Writes W.contents out.old out.new result (compact_text (joined (text.now ∷ []))) }
{
    put_bytes(text.as_bytes(), out)
}

/// Writes what is wrong with a word, and the nearest right word, or else how to mend the word.
fn put_parts<W: Write>(
    naming: Naming,
    misspelled: &Misspelled,
    out: &mut Out<W>,
) -> Result<(), Device>
    ensures { Writes W.contents out.old out.new result (compact_text (joined (named_parts (misspelled_view misspelled.now) (naming_view naming)))) }
{
    match &misspelled.nearest {
        Some(right) => put_joined(
            &[
                Part(misspelled.module.as_slice()),
                Part(naming.before.as_bytes()),
                Part(b"\""),
                Part(misspelled.word.as_slice()),
                Part(b"\""),
                Part(naming.after.as_bytes()),
                Part(hidden_text(&misspelled.word).as_bytes()),
                Part(b"; did you mean \""),
                Part(right.as_slice()),
                Part(b"\"?"),
            ],
            out,
        ),
        None => put_joined(
            &[
                Part(misspelled.module.as_slice()),
                Part(naming.before.as_bytes()),
                Part(b"\""),
                Part(misspelled.word.as_slice()),
                Part(b"\""),
                Part(naming.after.as_bytes()),
                Part(hidden_text(&misspelled.word).as_bytes()),
                Part(b"; "),
                Part(naming.mending.as_bytes()),
            ],
            out,
        ),
    }
}

/// Writes what is wrong with a word, of the name of a link that leads nowhere that it does.
fn put_named<W: Write>(
    naming: Naming,
    misspelled: &Misspelled,
    out: &mut Out<W>,
) -> Result<(), Device>
    ensures { Writes W.contents out.old out.new result (compact_text (joined (naming_parts (misspelled_view misspelled.now) (naming_view naming)))) }
{
    put_parts(naming_for(misspelled, naming), misspelled, out)
}

/// Writes what is wrong at this line, with the word that is wrong if it is known.
fn put_fault<W: Write>(
    line: usize,
    fault: FaultKind,
    word: Option<&Misspelled>,
    out: &mut Out<W>,
) -> Result<(), Device>
    ensures { Writes W.contents out.old out.new result (compact_text (joined (fault_parts line fault (word_of word.entry)))) }
{
    let Some(misspelled) = word else {
        return put_one(plain_sentence(line, fault), out);
    };
    match naming_of(fault) {
        Some(naming) => put_named(naming, misspelled, out),
        None => put_one(plain_sentence(line, fault), out),
    }
}

/// Writes what a difference means, and how to mend it.
fn put_released<W: Write>(difference: Difference, out: &mut Out<W>) -> Result<(), Device>
    ensures { Writes W.contents out.old out.new result (compact_text (joined (released_parts difference))) }
{
    put_joined(
        &[
            Part(difference.meaning().as_bytes()),
            Part(b"; "),
            Part(difference.mending().as_bytes()),
        ],
        out,
    )
}

/// Writes what a difference of a table means, and how to mend it.
fn put_table_difference<W: Write>(
    difference: TableDifference,
    out: &mut Out<W>,
) -> Result<(), Device>
    ensures { Writes W.contents out.old out.new result (compact_text (joined (table_difference_parts difference))) }
{
    put_joined(
        &[
            Part(difference.meaning().as_bytes()),
            Part(b"; "),
            Part(difference.mending().as_bytes()),
        ],
        out,
    )
}

/// Returns the kind with which what is said of a whole stack begins, empty for another problem.
fn subject_name(stack: Option<(Option<usize>, Kind)>) -> &'static str
    ensures { result.now ≡ subject_name stack }
{
    match stack {
        Some((_, kind)) => kind_name(kind),
        None => "",
    }
}

/// Writes what is wrong of a problem that is neither a fault nor a difference, nor about the module of a rule.
fn put_sentence<W: Write>(problem: Problem, out: &mut Out<W>) -> Result<(), Device>
    ensures { Writes W.contents out.old out.new result (compact_text (joined (plain_parts problem))) }
{
    put_joined(
        &[
            Part(subject_name(stack_of(problem)).as_bytes()),
            Part(problem_sentence(problem).as_bytes()),
        ],
        out,
    )
}

/// Writes what is wrong with a module whose path is not told.
fn put_untold<W: Write>(naming: Naming, out: &mut Out<W>) -> Result<(), Device>
    ensures { Writes W.contents out.old out.new result (compact_text (joined (module_parts (naming_view naming) None))) }
{
    put_joined(
        &[
            Part(naming.before.as_bytes()),
            Part(UNTOLD_MODULE),
            Part(naming.after.as_bytes()),
            Part(b"; "),
            Part(naming.mending.as_bytes()),
        ],
        out,
    )
}

/// Writes what is wrong with a module, with its path if it is known.
fn put_module<W: Write>(
    naming: Naming,
    word: Option<&Misspelled>,
    out: &mut Out<W>,
) -> Result<(), Device>
    ensures { Writes W.contents out.old out.new result (compact_text (joined (module_parts (naming_view naming) (word_of word.entry)))) }
{
    match word {
        Some(misspelled) => put_named(naming, misspelled, out),
        None => put_untold(naming, out),
    }
}

/// Writes that there is no `other`, or that it is a link which leads nowhere.
fn put_no_other<W: Write>(word: Option<&Misspelled>, out: &mut Out<W>) -> Result<(), Device>
    ensures { Writes W.contents out.old out.new result (compact_text (joined (other_parts (word_of word.entry)))) }
{
    match word {
        Some(misspelled) => put_named(dead_naming(), misspelled, out),
        None => put_sentence(Problem::NoOther, out),
    }
}

/// Writes what is wrong of a problem that is neither a fault nor a difference, with the path of the module if it is about one.
fn put_problem<W: Write>(
    problem: Problem,
    word: Option<&Misspelled>,
    out: &mut Out<W>,
) -> Result<(), Device>
    ensures { Writes W.contents out.old out.new result (compact_text (joined (problem_parts problem (word_of word.entry)))) }
{
    match naming_of_module(problem) {
        Some(naming) => put_module(naming, word, out),
        None => put_sentence(problem, out),
    }
}

/// Writes what is wrong with an argument, with the argument if it is known.
fn put_argument<W: Write>(
    problem: Problem,
    wrong: ArgumentProblem,
    word: Option<&Misspelled>,
    out: &mut Out<W>,
) -> Result<(), Device>
    ensures { Writes W.contents out.old out.new result (compact_text (joined (argument_parts problem wrong (word_of word.entry)))) }
{
    match word {
        Some(misspelled) => { put_named(argument_naming(wrong, &misspelled.word), misspelled, out) }
        None => put_sentence(problem, out),
    }
}

/// Writes what is wrong at a line, and how to mend it, with the word that is wrong if it is known.
pub(super) fn put_said<W: Write>(
    line: usize,
    problem: Problem,
    word: Option<&Misspelled>,
    out: &mut Out<W>,
) -> Result<(), Device>
    ensures { Writes W.contents out.old out.new result (compact_text (joined (said_parts line problem (word_of word.entry)))) }
{
    match problem {
        Problem::Fault(fault) | Problem::Walk(fault) => put_fault(line, fault, word, out),
        Problem::Released(difference) => put_released(difference, out),
        Problem::EmptySeparator => put_table_difference(TableDifference::EmptySeparator, out),
        Problem::NoOther => put_no_other(word, out),
        Problem::Argument { wrong, .. } => put_argument(problem, wrong, word, out),
        _ => put_problem(problem, word, out),
    }
}

/// Writes what is said of a line that says nothing of the host.
pub(super) fn put_unused_said<W: Write>(unused: &UnusedLine, out: &mut Out<W>) -> Result<(), Device>
    ensures { Writes W.contents out.old out.new result (compact_text (joined (unused_parts (unused_view unused.now)))) }
{
    match unused {
        UnusedLine::OfAccept(_) => put_bytes(UNUSED, out),
        UnusedLine::OfFacts(_, name) => put_named(idle_naming(), name, out),
    }
}

/// Writes what is wrong with a table, and how to mend it.
pub(super) fn put_table_said<W: Write>(
    problem: TableProblem,
    out: &mut Out<W>,
) -> Result<(), Device>
    ensures { Writes W.contents out.old out.new result (compact_text (joined (table_parts problem))) }
{
    match problem {
        TableProblem::Fault(fault) => put_one(table_fault_sentence(fault), out),
        TableProblem::TimeFault(fault) => put_one(time_fault_sentence(fault), out),
        TableProblem::Released(difference) => put_table_difference(difference, out),
    }
}
