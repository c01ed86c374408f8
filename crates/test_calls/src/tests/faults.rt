//! Faults that no command returns for a file of the tree.

use crate::tests::files::put;
use crate::tests::same::same;
use pam_conf::{ConfError, FaultKind, Files, Form};
use pam_facts::known::NumberedError;
use pam_report::{Fault, fault_status, fault_text};
use pam_tables::{Table, TableError, TableFault};
use std::alloc::Global;
use std::test::Fail;

/// A fault, its line and its exit status. A failed allocation never has a place.
static FAULTS: [(Fault, &str, u8); 6] = [
    (
        Fault::Conf(ConfError {
            kind: FaultKind::FileTooLong,
            at: Some(0),
            line: 0,
        }),
        "pamcheck: E16 FileTooLong login:0\n",
        3,
    ),
    (
        Fault::Conf(ConfError {
            kind: FaultKind::Memory,
            at: Some(0),
            line: 3,
        }),
        "pamcheck: E17 Memory\n",
        6,
    ),
    (
        Fault::Table(NumberedError {
            number: 2,
            error: TableError {
                table: Table::Access,
                fault: TableFault::Memory,
                line: 3,
            },
        }),
        "pamcheck: TE11 Memory\n",
        6,
    ),
    (
        Fault::Table(NumberedError {
            number: 2,
            error: TableError {
                table: Table::Access,
                fault: TableFault::BadPermission,
                line: 3,
            },
        }),
        "pamcheck: TE2 BadPermission access[2]:3\n",
        4,
    ),
    (Fault::Memory, "pamcheck: E17 Memory\n", 6),
    (Fault::Device, "pamcheck: V2 Write\n", 5),
];

fn files(alloc: Global) -> Result<Files, Fail> {
    let mut files = Files::new(alloc, Form::Dir);
    put(alloc, &mut files, b"login", b"")?;
    Ok(files)
}

fn line(alloc: Global, fault: &Fault) -> Result<Vec<u8>, Fail> {
    let files = files(alloc)?;
    let text = fault_text(alloc, fault, &files)?;
    Ok(text)
}

#[test]
fn lines_and_statuses_of_faults(rt: HostRuntime) -> Result<(), Fail> {
    for (fault, wanted, status) in &FAULTS {
        let line = line(rt.alloc(), fault)?;
        same(&rt, wanted, &line.as_slice(), &wanted.as_bytes());
        same(&rt, wanted, &fault_status(fault), status);
    }
    Ok(())
}
