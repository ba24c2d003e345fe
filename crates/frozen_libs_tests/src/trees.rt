//! Trees of host files.

ghost use Rattle.std.specs.Prelude.{◌≡◌, List, IfOk, Ok};
ghost use Rattle.frozen_libs.specs.HostForm.{host_form};
ghost use Rattle.value_model.specs.Fresh.{NoField};
ghost use Rattle.value_model.specs.Values.{Bytes};

use sqlite_items::Items;
use std::alloc::Global;
use std::test::Fail;
use syntax_tree::{Expr, ExprKind, FuncBody, Stat, StatKind, Tree};

/// The tree of `return {}`.
pub(crate) fn no_names(alloc: Global) -> Result<Tree, Fail>
    ensures { IfOk result (λ tree. (texts : List Bytes) → (host_form texts tree).top ≡ Ok NoField) }
{
    let value = Expr {
        id: 2,
        at: 7,
        line: 1,
        kind: ExprKind::Table(Items::new(alloc)),
    };
    let stat = Stat {
        id: 1,
        at: 0,
        line: 1,
        kind: StatKind::Return(Items::from_vec(vec![in alloc; value]?)),
    };
    Ok(Tree {
        main: FuncBody {
            id: 0,
            at: 0,
            line: 1,
            params: Items::new(alloc),
            vararg: true,
            body: Items::from_vec(vec![in alloc; stat]?),
        },
        nodes: 3,
    })
}
