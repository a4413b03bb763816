//! A list is made of a vector, and gives its members and the vector back.

use cal_machine::Listed;
use std::alloc::{AllocError, Global};
use std::process::Abort;

fn three(alloc: Global) -> Result<Listed<u64>, AllocError> {
    Ok(Listed::new(vec![in alloc; 3, 1, 2]?))
}

#[test]
fn lists_give_their_members_and_their_vector(rt: HostRuntime) -> Result<(), AllocError> {
    let list = three(rt.alloc())?;
    assert!(rt; matches!(list.as_slice(), [3, 1, 2]));
    let mut items = list.into_items();
    items.push(5)?;
    assert!(rt; matches!(items.as_slice(), [3, 1, 2, 5]));
    Ok(())
}
