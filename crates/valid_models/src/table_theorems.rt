//! The laws of the layers below, together.
ghost use Rattle.valid_models.specs.Tables.{ClosureTableIsRight};

use graph_decoding::{decoding_laws, local_laws, structure_laws};
use table_plan::{plan_laws, spelling_laws};

/// The table of a closure is right.
pub fn right_tables()
    ensures { ClosureTableIsRight }
{
    plan_laws();
    spelling_laws();
    structure_laws();
    decoding_laws();
    local_laws();
}
