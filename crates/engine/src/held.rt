// The model that an update is of.

ghost use Rattle.engine_table.specs.Table.{Drawn, table_in};

use rules::Sizes;

// The sizes of the model, and its words, just as many as there are. It is one that a load accepts.
#[derive(Clone, Copy)]
pub struct Held<'a> {
    pub sizes: Sizes,
    pub labels: &'a [u32],
    pub equations: &'a [u32],
    pub moves: &'a [u32],
    pub ghost drawn: { Drawn (table_in sizes labels.now equations.now moves.now) },
}
