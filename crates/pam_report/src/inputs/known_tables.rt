//! What gives the codes of modules, from the inputs of the commands about paths.

ghost use Rattle.std.specs.Prelude.{◌≡◌, None, option_map};
ghost use Rattle.pam_facts.specs.known.Tables.{tables_view, timed_view};
ghost use Rattle.pam_report.specs.Inputs.{tables_given as tables_in, timed as timed_text};
ghost use Rattle.pam_report.specs.inner.Known.{tables_from, with_time};

use crate::inputs::given::{slice_given, table_bytes};
use crate::inputs::{Inputs, TableFile};
use jiff::civil::DateTime;
use pam_facts::Facts;
use pam_facts::known::{Tables, TimedTable};

/// What the codes of modules are found from: the inputs, and what is known of modules, if that is asked.
#[derive(Clone, Copy)]
pub(crate) struct Given<'x> {
    pub(crate) inputs: &'x Inputs,
    pub(crate) facts: Option<&'x Facts<'x>>,
}

/// Returns a time table with the moment. Without a moment there is no time table.
fn timed(table: &Option<TableFile>, moment: Option<DateTime>) -> Option<TimedTable<'_>>
    ensures { option_map timed_view result ≡ timed_text table.now moment }
{
    match (table, moment) {
        (Some(table), Some(moment)) => Some(TimedTable {
            bytes: table.bytes.as_slice(),
            moment,
        }),
        (Some(_table), None) => None,
        (None, _moment) => None,
    }
}

/// Returns the time table of the commands about paths with a moment, if both are given.
pub(crate) fn timed_given(inputs: &Inputs, moment: Option<DateTime>) -> Option<TimedTable<'_>>
    ensures { option_map timed_view result ≡ (tables_in inputs.now None moment).time }
{
    match inputs {
        Inputs::Paths { given, .. } => timed(&given.tables.time, moment),
        _ => None,
    }
}

fn copied<'a>(time: &Option<TimedTable<'a>>) -> Option<TimedTable<'a>>
    ensures { option_map timed_view result ≡ option_map timed_view time.now }
{
    match time {
        Some(table) => Some(TimedTable {
            bytes: table.bytes,
            moment: table.moment,
        }),
        None => None,
    }
}

/// Returns the tables of the commands about paths, with this time table, which modules are there, and what is known of them: what gives
/// the codes of modules.
pub(crate) fn tables_with<'a>(given: Given<'a>, time: &Option<TimedTable<'a>>) -> Tables<'a>
    ensures { tables_view result ≡ with_time (tables_from given.entry None) (option_map timed_view time.now) }
{
    let facts = given.facts;
    match given.inputs {
        Inputs::Paths { given, .. } => Tables {
            there: given.there.as_ref(),
            groups: table_bytes(&given.tables.groups),
            access: Some(&given.tables.access.contents),
            time: copied(time),
            returns: slice_given(&given.returns),
            facts,
        },
        _ => Tables {
            there: None,
            groups: None,
            access: None,
            time: copied(time),
            returns: None,
            facts,
        },
    }
}
