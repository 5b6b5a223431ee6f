// Hidden tables.
use crate::samples::{hidden, ids};
use std::test::Fail;

#[test]
fn a_job_hides_its_tables_until_it_ends(rt: HostRuntime) -> Result<(), Fail> {
    let mut set = hidden(rt.alloc(), &[1, 2])?;
    set.hide(&ids(rt.alloc(), &[2, 3])?)?;
    assert!(rt; set.is_hidden(3) && !set.is_hidden(4));
    assert!(rt; set.is_blocked(&ids(rt.alloc(), &[4, 3])?));
    assert!(rt; !set.should_decline_compaction(&ids(rt.alloc(), &[4])?));
    let copy = set.copy()?;
    set.show(&ids(rt.alloc(), &[1, 2, 3])?);
    assert!(rt; set.is_empty() && !copy.is_empty());
    Ok(())
}
