// The sorting of rows.
use river_base::{NoMemory, Row, Rows};
use std::alloc::Global;
use std::test::Fail;

fn rows_of(alloc: Global, values: &[i64]) -> Result<Rows, NoMemory> {
    let mut rows = Rows::new(alloc);
    for value in values {
        rows.push(Row::one(*value))?;
    }
    Ok(rows)
}

#[test]
fn rows_are_sorted(rt: HostRuntime) -> Result<(), Fail> {
    let mut rows = rows_of(rt.alloc(), &[3, -1, 3, 2])?;
    rows.sort()?;
    assert!(rt; rows == rows_of(rt.alloc(), &[-1, 2, 3, 3])?);
    Ok(())
}
