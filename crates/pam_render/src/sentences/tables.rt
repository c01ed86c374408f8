//! What `check` says of each problem of a table: what is wrong, and how to mend it.

ghost use Rattle.std.specs.Prelude.{◌≡◌};
ghost use Rattle.pam_codes.specs.Out.{Writes};
ghost use Rattle.pam_render.specs.sentences.Tables as spec;

use pam_codes::{Device, Out, Piece};
use pam_findings::tables::TableProblem;
use pam_released::tables::TableDifference;
use pam_tables::TableFault;
use pam_tables::times::TimeFault;
use std::io::Write;

/// Returns what is wrong with a group file or an access table, and how to mend it.
#[tactic(auto, unfolding(crate::specs::sentences::Tables::table_fault_sentence))]
pub fn table_fault_sentence(fault: TableFault) -> &'static str
    ensures { result.now ≡ spec.table_fault_sentence fault }
{
    match fault {
        TableFault::MissingField => {
            "the line ends too early; a rule has a permission, users and origins, between :"
        }
        TableFault::BadPermission => "the permission is neither + nor -; write one of them",
        TableFault::Netgroup => {
            "a netgroup, which is not looked up here; name the users or hosts"
        }
        TableFault::UserAtHost => {
            "a user at a host, which is not looked up here; name the user, and the host among the origins"
        }
        TableFault::BadMask => {
            "the mask is neither a number of bits nor an address of the same family; write one of them"
        }
        TableFault::BadGroup => {
            "the line is not name, password, number and members; write these four, and three : between them"
        }
        TableFault::NulByte => "the table has a NUL byte; remove it",
        TableFault::Memory => "an allocation failed",
        TableFault::TableTooLong => "the table is longer than 1,048,576 bytes; shorten it",
        TableFault::BadCode => "a word is no return code; write one as success",
        TableFault::BadModule => "the name of a module has a slash; write it without folder",
    }
}

/// Returns what is wrong with a time table, and how to mend it.
#[tactic(auto, unfolding(crate::specs::sentences::Tables::time_fault_sentence))]
pub fn time_fault_sentence(fault: TimeFault) -> &'static str
    ensures { result.now ≡ spec.time_fault_sentence fault }
{
    match fault {
        TimeFault::MissingField => {
            "the line lacks a field; a rule has services, terminals, users and times, between ;"
        }
        TimeFault::Netgroup => "a netgroup, which is not looked up here; name the users",
        TimeFault::BadTimes => {
            "the times are not days and a range; write them as MoTuWeThFr0800-1800"
        }
        TimeFault::TwoWildcards => "a name has more than one *; leave one",
        TimeFault::BadLogic =>
            "the field is not a list of names; write one & or | between two names, and at most one ! before each",
        TimeFault::NulByte => "the table has a NUL byte; remove it",
        TimeFault::Memory => "an allocation failed",
        TimeFault::TooLong => "the table is longer than 1,048,576 bytes; shorten it",
    }
}

/// Writes what a difference of a table means, and how to mend it.
pub(crate) fn put_table_difference<W: Write>(
    difference: TableDifference,
    out: &mut Out<W>,
) -> Result<(), Device>
    ensures { Writes W.contents out.old out.new result (spec.table_difference_sentence difference) }
{
    out.put_line(&[
        Piece::Bytes(difference.meaning().as_bytes()),
        Piece::Bytes(b"; "),
        Piece::Bytes(difference.mending().as_bytes()),
    ])
}

/// Writes what is wrong with a table, and how to mend it.
pub fn put_table_said<W: Write>(problem: TableProblem, out: &mut Out<W>) -> Result<(), Device>
    ensures { Writes W.contents out.old out.new result (spec.table_sentence problem) }
{
    match problem {
        TableProblem::Fault(fault) => out.put(table_fault_sentence(fault).as_bytes()),
        TableProblem::TimeFault(fault) => out.put(time_fault_sentence(fault).as_bytes()),
        TableProblem::Released(difference) => put_table_difference(difference, out),
    }
}
