//! A call of its own. That each node of many trees has its number is seen by the tests of the parser, which numbers by it.

use node_numbers::number;
use sqlite_items::Items;
use std::alloc::{AllocError, Global};
use std::test::Fail;
use syntax_tree::{FuncBody, Stat, StatKind};

fn block(alloc: Global, kind: StatKind) -> Result<Items<Stat>, AllocError> {
    let mut list = Items::new(alloc);
    list.push(Stat {
        id: 0,
        at: 0,
        line: 1,
        kind,
    })?;
    Ok(list)
}

// do break end
fn script(alloc: Global) -> Result<FuncBody, AllocError> {
    let inner = block(alloc, StatKind::Break)?;
    Ok(FuncBody {
        id: 0,
        at: 0,
        line: 1,
        params: Items::new(alloc),
        vararg: true,
        body: block(alloc, StatKind::Do(inner))?,
    })
}

#[test]
fn nodes_are_numbered_in_order(rt: HostRuntime) -> Result<(), Fail> {
    let tree = number(rt.alloc(), script(rt.alloc())?)?;
    assert_eq!(rt; tree.nodes, 3);
    assert_eq!(rt; tree.main.id, 0);
    for stat in tree.main.body.as_slice() {
        assert_eq!(rt; stat.id, 1);
        if let StatKind::Do(inner) = &stat.kind {
            for stat in inner.as_slice() {
                assert_eq!(rt; stat.id, 2);
            }
        }
    }
    Ok(())
}
