//! The modules of the table, by name.

ghost use Rattle.std.specs.Prelude.{◌≡◌, IfOk};
ghost use Rattle.std.specs.Option.{option_map};
ghost use Rattle.pam_facts.specs.arguments.Table.{lines_of, module_named, verdict};
ghost use Rattle.pam_facts.specs.arguments.Views.{module_view, verdict_view};
ghost use Rattle.pam_facts.specs.declared.arguments.table.TheConstants.{TABLE};
ghost use Rattle.pam_facts.specs.arguments.inner.Table.{HasLines};

use crate::arguments::cuts::Parts;
use crate::arguments::modules::Module;
use crate::arguments::table::table;
use crate::arguments::verdict::Verdict;
use indexmap::IndexMap;
use pam_conf::Kind;
use pam_text::cut;
use std::alloc::{AllocError, Global};

/// What is known of the arguments of modules: the program's table, with an index of its lines by the names of modules.
#[derive(Drop)]
pub struct Arguments {
    lines: IndexMap<&'static [u8], &'static [u8]>,
    ghost known: { HasLines lines.entries (lines_of TABLE.now) },
}

/// The lines of a text that have a name, by their names.
fn index_of<'t>(alloc: Global, text: &'t [u8]) -> Result<IndexMap<&'t [u8], &'t [u8]>, AllocError>
    ensures { IfOk result (λ index. HasLines index.entries (lines_of text.now)) }
{
    let mut index = IndexMap::new(alloc);
    for line in Parts::of(Some(text), b'\n') {
        if let Some((name, rest)) = cut(line, b' ') {
            index.insert(name, rest)?;
        }
    }
    Ok(index)
}

impl Arguments {
    /// The program's table.
    pub fn table(alloc: Global) -> Result<Arguments, AllocError> {
        let lines = index_of(alloc, table())?;
        Ok(Arguments { lines })
    }

    /// What is known of the arguments of a module, by its name without folder and `.so`.
    #[tactic(auto, unfolding(crate::specs::arguments::Table::module_named))]
    pub fn of(&self, name: &[u8]) -> Option<Module<'static>>
        ensures { option_map module_view result ≡ module_named name.now }
    {
        match self.lines.get(name) {
            Some(text) => Some(Module::of(text)),
            None => None,
        }
    }

    /// What a module makes of an argument of its rule of this kind, by its name without folder and `.so`. `None` where nothing is
    /// known of its arguments.
    #[tactic(auto, unfolding(crate::specs::arguments::Table::verdict))]
    pub fn judge(&self, name: &[u8], kind: Kind, word: &[u8]) -> Option<Verdict<'static>>
        ensures { option_map verdict_view result ≡ verdict name.now kind word.now }
    {
        match self.of(name) {
            Some(known) => Some(known.judge(kind, word)),
            None => None,
        }
    }
}
