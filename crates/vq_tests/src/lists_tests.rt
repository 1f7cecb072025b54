//! Rows of numbers in one list.
use std::alloc::Global;
use vq_lists::Rows;

/// Three rows, of which the second is empty.
const ROWS: [&[u32]; 3] = [&[4, 9], &[], &[7]];

/// Whether rows are found as they were added, and none before.
fn are_found(alloc: Global) -> Option<bool> {
    let mut rows = Rows::with_room(alloc, 2, 1).ok()?;
    let none = rows.len() == 0;
    for row in &ROWS {
        rows.push(row).ok()?;
    }
    if rows.len() != ROWS.len() {
        return Some(false);
    }
    for (number, row) in ROWS.iter().enumerate() {
        if rows.row(number) != *row {
            return Some(false);
        }
    }
    Some(none)
}

#[test]
fn rows_are_found_as_they_were_added(rt: HostRuntime) {
    assert!(rt; are_found(rt.alloc()) == Some(true));
}
