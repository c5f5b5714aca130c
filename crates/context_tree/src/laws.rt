//! Laws on the calling contexts of a run: each is the contract of a function that does nothing.
ghost use Rattle.std.specs.Prelude.{◌≡◌, ℕ, List};
ghost use Rattle.trace_model.specs.declared.event_kinds.Event.{Event};
ghost use Rattle.context_tree.specs.Laws.{AddUp, ContextsMakeTheTable, EachHasOneContext, context_points, routine_points, together};
ghost use Rattle.context_tree.specs.Contexts.{contexts};
ghost use Rattle.context_tree.specs.Order.{IsInOrder, in_order};

/// Each activation that ended has one context. So those of all contexts make the table of all that ended, and for each
/// routine the calls, the sums of costs and the parts of sizes of its contexts add up to its own. The points of its contexts,
/// put together size by size, are its points.
pub fn contexts_add_up()
    ensures one { (past : List Event) → EachHasOneContext past }
    ensures table { (past : List Event) → ContextsMakeTheTable past }
    ensures routines { (past : List Event) (entry : ℕ)
        → AddUp (context_points past entry) (routine_points past entry) }
    ensures sizes { (past : List Event) (entry : ℕ)
        → together (context_points past entry) ≡ routine_points past entry }
{}

/// There is one order of the text: each of its contexts is at the place given by how many come before it; and the
/// contexts of each run can be put in it.
pub fn the_order_is_one()
    ensures one { (contexts ordered : List (List ℕ)) → IsInOrder contexts ordered
        → ordered ≡ in_order contexts }
    ensures some { (past : List Event) → IsInOrder (contexts past) (in_order (contexts past)) }
{}
