use crate::Tree;
use faust_types::OpName;
use std::test::Fail;

const FIRST: OpName = OpName { client: 1, t: 1 };

const SECOND: OpName = OpName { client: 1, t: 2 };

const OTHER: OpName = OpName { client: 2, t: 1 };

/// Two paths that begin alike: the shared name is one node, and adding a path again makes none.
#[test]
fn paths_share_their_beginning(rt: HostRuntime) -> Result<(), Fail> {
    let mut tree = Tree::new(rt.alloc())?;
    let first = tree.add(None, FIRST)?;
    let second = tree.add(Some(first), SECOND)?;
    let other = tree.add(Some(first), OTHER)?;
    assert_eq!(rt; tree.add(Some(first), OTHER)?, other);
    assert_eq!(rt; tree.len(), 3);
    assert_eq!(rt; tree.path(other)?.as_slice(), [FIRST, OTHER].as_slice());
    assert!(rt; tree.is_prefix(first, second) && tree.is_prefix(first, other));
    assert!(rt; !tree.is_prefix(second, other) && !tree.is_prefix(other, second));
    Ok(())
}
