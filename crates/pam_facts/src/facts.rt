//! What is known of modules.

ghost use Rattle.std.specs.Prelude.{◌≡◌, IfOk, false, map};
ghost use Rattle.std.specs.List.{list_all, list_any, take_while};
ghost use Rattle.std.specs.Option.{option_map_or};
ghost use Rattle.pam_conf.specs.ItemsOf.{module_text};
ghost use Rattle.pam_facts.specs.Error.{Gives};
ghost use Rattle.pam_facts.specs.Fitting.{argument_fits, fact_of, fits, has_row, last_fact};
ghost use Rattle.pam_facts.specs.Facts.{unknown};
ghost use Rattle.pam_facts.specs.Kinds.{has_kind};
ghost use Rattle.pam_facts.specs.Knowing.{is_known, meaning_of, says_known};
ghost use Rattle.pam_facts.specs.arguments.Views.{module_view, verdict_view};
ghost use Rattle.pam_facts.specs.Options.{arguments_read, is_option};
ghost use Rattle.pam_facts.specs.Reading.{known_rows};
ghost use Rattle.pam_facts.specs.Views.{row_view, texts_of};

use crate::arguments::{Arguments, Module as KnownModule, Verdict};
use crate::error::FactsError;
use crate::kinds::Kinds;
use crate::names::names_of;
use crate::options::is_option;
use crate::paths::module_name;
use crate::reading::{Row, add_file, add_table};
use crate::row::Fact;
use pam_conf::{Kind, Module};
use pam_text::Texts;
use std::alloc::{AllocError, Global};
use std::marker::Model;

/// What is known of modules: the program's table, and then the rows of a facts file.
///
/// A line of a facts file is `NAME [ARGUMENT [ARGUMENT]] CLASS [KIND,... CODE ...]...`, separated by spaces and tabs. NAME is
/// that of a module, without folder and `.so`. CLASS is `checks`, `ignores`, `passes` or `fails`. The row fits the rules of
/// this module that have each ARGUMENT; one that ends in `=` matches each argument that begins with it. The codes are all
/// that the module can answer in these kinds; where no codes are given, it can answer any. Of the rows that fit a rule the
/// last counts, and it counts alone.
///
/// A line `NAME knows ARGUMENT [KIND,...]` says that the module knows an argument in these kinds, or in all. One that ends in `=`
/// is each that begins with it. Such a line tells nothing else of the module.
///
/// Lines that begin with `#` and blank lines are skipped. The case of kinds and codes is ignored.
#[derive(Drop)]
pub struct Facts<'a> {
    rows: Vec<Row<'a>>,
    arguments: Arguments,
}

impl<'a> Model for Facts<'a> {
    ghost use Rattle.std.specs.Prelude.{List, map};
    ghost use Rattle.pam_facts.specs.Rows.{Row as RowText};
    ghost use Rattle.pam_facts.specs.Views.{row_view};

    ghost Value = { List RowText };

    ghost view = { λ f. map row_view f.rows.items };
}

/// Whether an argument of a rule is the one that a row wants.
fn argument_fits(wanted: &[u8], argument: &[u8]) -> bool
    ensures { result ≡ argument_fits wanted.now argument.now }
{
    if wanted.ends_with(b"=") {
        argument.starts_with(wanted)
    } else {
        argument == wanted
    }
}

/// Whether an option of `pam_exec` before the program is the one that is wanted.
fn has_option(wanted: &[u8], arguments: &Texts) -> bool
    ensures { result ≡ list_any (argument_fits wanted.now) (take_while is_option arguments.now) }
{
    arguments
        .iter()
        .take_while(|argument| is_option(argument))
        .any(|argument| argument_fits(wanted, argument))
}

/// Whether a module of this name reads the argument that is wanted.
fn has_argument(name: &[u8], wanted: &[u8], arguments: &Texts) -> bool
    ensures { result ≡ list_any (argument_fits wanted.now) (arguments_read name.now arguments.now) }
{
    if name == b"pam_exec".as_slice() {
        has_option(wanted, arguments)
    } else {
        arguments
            .iter()
            .any(|argument| argument_fits(wanted, argument))
    }
}

/// Whether the arguments have the one that is wanted, if one is.
fn has_wanted(name: &[u8], wanted: Option<&[u8]>, arguments: &Texts) -> bool
    ensures { result ≡ list_all (λ w. list_any (argument_fits w) (arguments_read name.now arguments.now)) (texts_of wanted.entry) }
{
    match wanted {
        Some(wanted) => has_argument(name, wanted, arguments),
        None => true,
    }
}

/// Whether a row with a class fits a module of this name with these arguments.
fn fits(name: &[u8], arguments: &Texts, row: &Row<'_>) -> bool
    ensures { result ≡ fits name.now (arguments_read name.now arguments.now) (row_view row.now) }
{
    row.knows.is_none()
        && row.name == name
        && has_wanted(name, row.arguments.first, arguments)
        && has_wanted(name, row.arguments.second, arguments)
}

/// The fact of the last row that fits.
fn last_fact(name: &[u8], arguments: &Texts, rows: &[Row<'_>]) -> Fact
    ensures { result ≡ last_fact (fits name.now (arguments_read name.now arguments.now)) unknown (map row_view rows.now) }
{
    let mut fact = Fact::unknown();
    for row in rows {
        if fits(name, arguments, row) {
            fact = row.fact;
        }
    }
    fact
}

/// Whether a word is the argument that is wanted, if one is.
fn is_wanted(wanted: Option<&[u8]>, word: &[u8]) -> bool
    ensures { result ≡ list_any (λ w. argument_fits w word.now) (texts_of wanted.entry) }
{
    match wanted {
        Some(wanted) => argument_fits(wanted, word),
        None => false,
    }
}

fn is_of_kind(kinds: Option<Kinds>, kind: Kind) -> bool
    ensures { result ≡ option_map_or (has_kind kind) kinds false }
{
    match kinds {
        Some(kinds) => kinds.has(kind),
        None => false,
    }
}

/// Whether a row says that a module of this name knows a word of a rule of this kind.
fn says_known(name: &[u8], kind: Kind, word: &[u8], row: &Row<'_>) -> bool
    ensures { result ≡ says_known name.now kind word.now (row_view row.now) }
{
    row.name == name
        && is_of_kind(row.knows, kind)
        && (is_wanted(row.arguments.first, word) || is_wanted(row.arguments.second, word))
}

/// Whether some row says so.
fn some_says_known(name: &[u8], kind: Kind, word: &[u8], rows: &[Row<'_>]) -> bool
    ensures { result ≡ list_any (says_known name.now kind word.now) (map row_view rows.now) }
{
    for row in rows {
        if says_known(name, kind, word, row) {
            return true;
        }
    }
    false
}

/// Whether some row fits.
fn some_fits(name: &[u8], arguments: &Texts, rows: &[Row<'_>]) -> bool
    ensures { result ≡ list_any (fits name.now (arguments_read name.now arguments.now)) (map row_view rows.now) }
{
    for row in rows {
        if fits(name, arguments, row) {
            return true;
        }
    }
    false
}

impl<'a> Facts<'a> {
    /// Reads a facts file after the program's table, or returns the file's first fault. An empty file adds nothing.
    ///
    /// `TooLong` (line 0) comes first, then `NulByte`, then the lines from the top. A failed allocation is `Memory`, with line
    /// 0.
    #[tactic(auto, unfolding(crate::specs::Reading::known_rows))]
    pub fn read(alloc: Global, file: &'a [u8]) -> Result<Facts<'a>, FactsError>
        ensures { Gives (λ facts. facts) result (known_rows file.now) }
    {
        let mut rows = Vec::new(alloc);
        add_table(&mut rows)?;
        add_file(file, &mut rows)?;
        let arguments = Arguments::table(alloc)?;
        Ok(Facts { rows, arguments })
    }

    /// What is known of the module at a path, for the arguments of its rule that it reads.
    pub fn of(&self, path: &[u8], arguments: &Texts) -> Fact
        ensures { result ≡ fact_of self.now path.now arguments.now }
    {
        match module_name(path) {
            Some(name) => last_fact(name, arguments, &self.rows),
            None => Fact::unknown(),
        }
    }

    /// Whether some row fits the module at a path, for the arguments of its rule that it reads. Where none does, nothing is known
    /// of the module.
    pub fn has_row(&self, path: &[u8], arguments: &Texts) -> bool
        ensures { result ≡ has_row self.now path.now arguments.now }
    {
        match module_name(path) {
            Some(name) => some_fits(name, arguments, &self.rows),
            None => false,
        }
    }

    /// Whether a row says that the module at a path knows a word of a rule of this kind.
    fn is_known(&self, path: &[u8], kind: Kind, word: &[u8]) -> bool
        ensures { result ≡ is_known self.now path.now kind word.now }
    {
        match module_name(path) {
            Some(name) => some_says_known(name, kind, word, &self.rows),
            None => false,
        }
    }

    /// What the module of a rule of this kind makes of a word, where this is known of its arguments.
    pub fn judge<'t>(
        &self,
        known: &KnownModule<'t>,
        kind: Kind,
        module: &Module,
        word: &[u8],
    ) -> Verdict<'t>
        ensures { verdict_view result ≡ meaning_of self.now kind (module_text «module».now) (module_view known.now) word.now }
    {
        let verdict = known.judge(kind, word);
        match verdict {
            Verdict::Known | Verdict::Free | Verdict::Weak => verdict,
            Verdict::Longer(_) | Verdict::OtherKind | Verdict::BadValue(_) | Verdict::Unknown(_) =>
                {
                    if self.is_known(&module.path, kind, word) {
                        Verdict::Known
                    } else {
                        verdict
                    }
                }
        }
    }

    /// What is known of the arguments of modules, without what the rows say.
    pub fn arguments(&self) -> &Arguments {
        &self.arguments
    }

    /// The name of the module of each row, in the order of the rows. A module that several rows are about is there as often.
    pub fn names(&self, alloc: Global) -> Result<Texts, AllocError>
        ensures { IfOk result (λ names. names ≡ map (λ row. row.name) self.now) }
    {
        names_of(alloc, &self.rows)
    }
}
