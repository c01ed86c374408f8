//! S8: the lines of the accept file and of the facts file that say nothing of a host.

ghost use Rattle.std.specs.Prelude.{◌≡◌, ◌≤◌, ◌∷◌, ◌++◌, [], IfOk, OnOk, Some, filter_map, length, map, not, take};
ghost use Rattle.std.specs.List.{prefix_len};
ghost use Rattle.std.specs.Option.{option_map};
ghost use Rattle.pam_explain.specs.Views.{explanation_view};
ghost use Rattle.pam_facts.specs.Paths.{module_name as spec_module_name};
ghost use Rattle.pam_policy.specs.names.Host.{call_view};
ghost use Rattle.pam_report.specs.Unused as spec;
ghost use Rattle.pam_report.specs.Unused.{unused_view};
ghost use Rattle.pam_text.specs.Blanks.{is_table_blank};

use pam_conf::{Files, NameList, RuleFiles};
use pam_explain::{Explanation, Level, hosts};
use pam_facts::module_name;
use pam_findings::misspelled::{MAX_NAMES, Misspelled};
use pam_policy::names::{Call, calls_in};
use pam_spelling::nearest;
use pam_tables::parts::Lines;
use pam_text::{Source, Texts, is_table_blank};
use std::alloc::{AllocError, Global};

/// A line of a file that says nothing of the host.
#[derive(Drop)]
pub enum UnusedLine {
    /// No finding has the number and the place that this line of the accept file has.
    OfAccept(u32),
    /// No rule calls the module of this line of the facts file, and no folder of modules has it. Its name is a word that may be wrong.
    OfFacts(u32, Misspelled),
}

impl UnusedLine {
    /// Returns the number of the line, from 1.
    pub fn number(&self) -> u32
        ensures { result ≡ spec.number_of_unused (unused_view self.now) }
    {
        match self {
            UnusedLine::OfAccept(line) | UnusedLine::OfFacts(line, _) => *line,
        }
    }

    /// Returns the name of its file.
    pub fn file<'a>(&self, accept: &'a [u8], facts: &'a [u8]) -> &'a [u8]
        ensures { result.now ≡ spec.file_of_unused accept.now facts.now (unused_view self.now) }
    {
        match self {
            UnusedLine::OfAccept(_) => accept,
            UnusedLine::OfFacts(_, _) => facts,
        }
    }

    /// Returns how grave it is: as its row says, but a facts file may be that of many hosts.
    pub fn level(&self) -> Level
        ensures { result ≡ spec.level_of_unused (unused_view self.now) }
    {
        match self {
            UnusedLine::OfAccept(_) => unused_row().level,
            UnusedLine::OfFacts(_, _) => Level::Note,
        }
    }
}

/// Returns the row of such a line.
pub fn unused_row() -> &'static Explanation
    ensures { explanation_view result.now ≡ spec.unused_row }
{
    &hosts::UNUSED_LINE
}

fn blank_len(line: &[u8]) -> usize
    ensures value { result ≡ prefix_len is_table_blank line.now }
    ensures bound { result ≤ length line.now }
{
    line.iter().take_while(|b| is_table_blank(**b)).count()
}

fn word_len(text: &[u8]) -> usize
    ensures value { result ≡ prefix_len (λ b. not (is_table_blank b)) text.now }
    ensures bound { result ≤ length text.now }
{
    text.iter().take_while(|b| !is_table_blank(**b)).count()
}

/// What is before the first blank.
fn word_before(text: &[u8]) -> &[u8]
    ensures { result.now ≡ spec.word_before text.now }
{
    text.split_at(word_len(text)).0
}

/// The first word of a line, empty if it has none.
fn first_word(line: &[u8]) -> &[u8]
    ensures { result.now ≡ spec.first_word line.now }
{
    word_before(line.split_at(blank_len(line)).1)
}

/// The name of the module of a line. A comment and a blank line have none.
fn module_in(line: &[u8]) -> Option<&[u8]>
    ensures { option_map (λ name. name.now) result ≡ spec.module_in line.now }
{
    let name = first_word(line);
    if line.starts_with(b"#") || name == b"".as_slice() {
        None
    } else {
        Some(name)
    }
}

/// Appends the name of the module at a path, if it has one.
fn push_module(names: &mut Texts, path: &[u8]) -> Result<(), AllocError>
    ensures { OnOk result (names.new ≡ names.old ++ filter_map spec_module_name (path.now ∷ [])) }
{
    match module_name(path) {
        Some(name) => names.push(name),
        None => Ok(()),
    }
}

/// Appends the names of the modules that rules call.
fn push_called(names: &mut Texts, calls: &[Call]) -> Result<(), AllocError>
    ensures { OnOk result (names.new ≡ names.old ++ filter_map (λ call. spec_module_name call.path) (map call_view calls.now)) }
{
    for call in calls {
        push_module(names, &call.path)?;
    }
    Ok(())
}

/// Appends the names of the modules at these paths.
fn push_there(names: &mut Texts, paths: &Texts) -> Result<(), AllocError>
    ensures { OnOk result (names.new ≡ names.old ++ filter_map spec_module_name paths.now) }
{
    for path in paths.iter() {
        push_module(names, path)?;
    }
    Ok(())
}

/// The names of the modules that rules call, and then of those that are there.
#[tactic(auto, unfolding(crate::specs::Unused::modules_met))]
fn modules_met(
    alloc: Global,
    files: &Files,
    there: Option<&NameList>,
) -> Result<NameList, AllocError>
    ensures { IfOk result (λ names. names ≡ spec.modules_met files.now (option_map (λ t. t.now) there.entry)) }
{
    let rules = RuleFiles::read(alloc, files)?;
    let calls = calls_in(alloc, &rules)?;
    let mut names = Texts::new(alloc);
    push_called(&mut names, &calls)?;
    if let Some(paths) = there {
        push_there(&mut names, paths.names())?;
    }
    NameList::of(alloc, names)
}

/// The first of these names, among which the nearest is looked for.
fn first_of(alloc: Global, names: &Texts) -> Result<Vec<&[u8]>, AllocError>
    ensures { IfOk result (λ first. map (λ n. n.now) first.items ≡ take MAX_NAMES names.now) }
{
    let mut first = Vec::new(alloc);
    for name in names.iter() {
        if first.len() == MAX_NAMES {
            return Ok(first);
        }
        first.push(name)?;
    }
    Ok(first)
}

fn owned_if_any(alloc: Global, name: Option<&[u8]>) -> Result<Option<Vec<u8>>, AllocError>
    ensures { IfOk result (λ owned. option_map (λ n. n.items) owned ≡ option_map (λ n. n.now) name.entry) }
{
    match name {
        Some(name) => Ok(Some(Vec::from_slice(alloc, name)?)),
        None => Ok(None),
    }
}

/// The modules that are met, and the first of their names.
#[derive(Clone, Copy)]
struct Met<'x> {
    names: &'x NameList,
    first: &'x [&'x [u8]],
}

/// The line that names a module, unless that is met.
fn idle_named(
    alloc: Global,
    met: Met<'_>,
    line: u32,
    name: &[u8],
) -> Result<Option<UnusedLine>, AllocError>
    requires { map (λ n. n.now) met.first.now ≡ take MAX_NAMES met.names.now }
    ensures { IfOk result (λ idle. option_map unused_view idle ≡ spec.idle_named met.entry.names.now line name.now) }
{
    if met.names.has(name) {
        return Ok(None);
    }
    let nearest = owned_if_any(alloc, nearest(met.first, name))?;
    Ok(Some(UnusedLine::OfFacts(
        line,
        Misspelled {
            module: Vec::new(alloc),
            word: Vec::from_slice(alloc, name)?,
            nearest,
            is_certain: false,
            leads_nowhere: false,
            spot: None,
        },
    )))
}

/// The same of a line with its number.
fn idle_at(
    alloc: Global,
    met: Met<'_>,
    line: u32,
    text: &[u8],
) -> Result<Option<UnusedLine>, AllocError>
    requires { map (λ n. n.now) met.first.now ≡ take MAX_NAMES met.names.now }
    ensures { IfOk result (λ idle. option_map unused_view idle ≡ spec.idle_at met.entry.names.now (line, text.now)) }
{
    match module_in(text) {
        Some(name) => idle_named(alloc, met, line, name),
        None => Ok(None),
    }
}

/// Appends the lines of a facts file that name no module that is met.
fn push_idle(
    alloc: Global,
    met: Met<'_>,
    source: Source<'_>,
    unused: &mut Vec<UnusedLine>,
) -> Result<(), AllocError>
    requires { map (λ n. n.now) met.first.now ≡ take MAX_NAMES met.names.now }
    ensures { OnOk result (map unused_view unused.new.items
        ≡ map unused_view unused.old.items ++ spec.idle_in met.entry.names.now source.entry.bytes.now) }
{
    for (number, line) in Lines::of(source) {
        if let Some(idle) = idle_at(alloc, met, number, line)? {
            unused.push(idle)?;
        }
    }
    Ok(())
}

/// Appends the idle rows of a facts file. Reads the rules only if it has bytes.
#[tactic(auto, unfolding(crate::specs::Unused::idle_rows))]
fn push_idle_rows(
    alloc: Global,
    files: &Files,
    there: Option<&NameList>,
    facts: &[u8],
    unused: &mut Vec<UnusedLine>,
) -> Result<(), AllocError>
    ensures { OnOk result (map unused_view unused.new.items ≡ map unused_view unused.old.items
        ++ spec.idle_rows files.now (option_map (λ t. t.now) there.entry) facts.now) }
{
    if facts.is_empty() {
        return Ok(());
    }
    let Ok(source) = Source::of(facts) else {
        return Ok(());
    };
    let names = modules_met(alloc, files, there)?;
    let first = first_of(alloc, names.names())?;
    let met = Met {
        names: &names,
        first: &first,
    };
    push_idle(alloc, met, source, unused)
}

/// Appends lines of the accept file.
fn push_accept(unused: &mut Vec<UnusedLine>, lines: &[u32]) -> Result<(), AllocError>
    ensures { OnOk result (map unused_view unused.new.items ≡ map unused_view unused.old.items ++ map spec.OfAccept lines.now) }
{
    for line in lines {
        unused.push(UnusedLine::OfAccept(*line))?;
    }
    Ok(())
}

/// Returns the lines of the accept file that accept nothing, which are these, and then the idle rows of the facts file.
pub(super) fn unused_lines(
    alloc: Global,
    accept: &[u32],
    files: &Files,
    there: Option<&NameList>,
    facts: &[u8],
) -> Result<Vec<UnusedLine>, AllocError>
    ensures { IfOk result (λ unused. map unused_view unused.items
        ≡ spec.unused_lines accept.now (spec.idle_rows files.now (option_map (λ t. t.now) there.entry) facts.now)) }
{
    let mut unused = Vec::new(alloc);
    push_accept(&mut unused, accept)?;
    push_idle_rows(alloc, files, there, facts, &mut unused)?;
    Ok(unused)
}
