//! Tables and returns files that are too long, and groups.

use crate::tests::same::same;
use pam_tables::times::{TimeError, TimeFault, TimeTable};
use pam_tables::{AccessOptions, AccessTable, Groups, ReturnTable, Table, TableError, TableFault};
use pam_text::Texts;
use std::alloc::Global;
use std::test::Fail;

fn too_long(table: Table) -> Option<TableError> {
    Some(TableError {
        table,
        fault: TableFault::TableTooLong,
        line: 0,
    })
}

fn access_fault(alloc: Global, bytes: &[u8]) -> Option<TableError> {
    let arguments = Texts::new(alloc);
    AccessTable::read(alloc, bytes, &AccessOptions::of(&arguments)).err()
}

fn group_fault(alloc: Global, bytes: &[u8]) -> Option<TableError> {
    Groups::read(alloc, bytes).err()
}

fn returns_fault(alloc: Global, bytes: &[u8]) -> Option<TableError> {
    ReturnTable::read(alloc, bytes).err()
}

fn time_fault(alloc: Global, bytes: &[u8]) -> Option<TimeError> {
    TimeTable::read(alloc, bytes).err()
}

#[test]
fn tables_of_one_byte_too_many(rt: HostRuntime) -> Result<(), Fail> {
    let long = vec![in rt.alloc(); 0; 1_048_577]?;
    let access = access_fault(rt.alloc(), &long);
    same(&rt, "access", &access, &too_long(Table::Access));
    let groups = group_fault(rt.alloc(), &long);
    same(&rt, "groups", &groups, &too_long(Table::Group));
    let returns = returns_fault(rt.alloc(), &long);
    same(&rt, "returns", &returns, &too_long(Table::Returns));
    let too_long = TimeError {
        fault: TimeFault::TooLong,
        line: 0,
    };
    let time = time_fault(rt.alloc(), &long);
    same(&rt, "time", &time, &Some(too_long));
    Ok(())
}

#[test]
fn members_of_groups(rt: HostRuntime) -> Result<(), Fail> {
    let groups = Groups::read(rt.alloc(), b"a:x:1:bob,,carol\r\n\nb::x:bob")?;
    same(&rt, "a member", &groups.lists(b"a", b"carol"), &true);
    same(&rt, "no name", &groups.lists(b"a", b""), &false);
    Ok(())
}

#[test]
fn no_groups_list_nobody(rt: HostRuntime) {
    let groups = Groups::new(rt.alloc());
    same(&rt, "a member", &groups.lists(b"a", b"bob"), &false);
}
