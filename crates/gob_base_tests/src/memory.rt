//! Tables where memory may be refused: the right answer, or want of memory and nothing else.
//! tools/refuse-memory runs this with each allocation refused in turn.
use gob_test_rows::define;
use gob_types::{DefineFault, NotReady, Shapes, Table, TypeId};
use std::alloc::Global;

// Whether the definition is taken, or memory is wanted and the table is as it was.
fn is_taken(alloc: Global, table: &mut Table) -> bool {
    let wanted = match define(alloc, table, TypeId(65), "slice 2") {
        Ok(true) => 1,
        Err(DefineFault::Memory) => 0,
        _ => return false,
    };
    let is_there = wanted == 1;
    table.count() == wanted
        && table.shape_of(TypeId(65)).is_some() == is_there
        && table.kept(TypeId(65)) == is_there
}

// Whether wireType is ready, or memory is wanted.
fn is_ready(alloc: Global, table: &Table) -> bool {
    match table.ready(alloc, TypeId(16)) {
        Ok(()) | Err(NotReady::Memory) => true,
        Err(_) => false,
    }
}

// Whether both are so.
fn is_right(alloc: Global) -> bool {
    match Table::new(alloc, 2) {
        Ok(mut table) => is_taken(alloc, &mut table) && is_ready(alloc, &table),
        Err(_) => true,
    }
}

#[test]
fn tables_want_memory(rt: HostRuntime) {
    assert!(rt;
        is_right(rt.alloc()),
        "a definition, or whether wireType is ready"
    );
}
