//! What holds of all orders. The body is empty: what is proved is the contract.
ghost use Rattle.std.specs.Prelude.{List};
ghost use Rattle.std.specs.List.Sorted.{IsPermutation};
ghost use Rattle.graph_core.specs.Graphs.{Text};
ghost use Rattle.literal_table.specs.Tables.{Table, table_names};
ghost use Rattle.ranked_costs.specs.Walks.{post_order};

/// Each name of the table stands in the order once.
pub fn order_laws()
    ensures each { (table : Table) (roots : List Text)
        → IsPermutation (table_names table) (post_order table roots) }
{}
