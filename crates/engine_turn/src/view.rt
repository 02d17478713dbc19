// The value by which the functions of a turn see what none of them changes.

ghost use Rattle.std.specs.Prelude.{◌≡◌, length};
ghost use Rattle.rules.specs.Rooms.{pairs_of};
ghost use Rattle.engine_table.specs.Sketch.{sketch};
ghost use Rattle.engine_index.specs.Operands.{Named};

use engine_index::Known;

// What a turn looks at: the model with the index of its moves, the operands by the variable that they name, the values, the value that
// pairs turn from, and whether the phase settles. The last is a truth value as in the rule's machine, by which each contract speaks of it.
#[derive(Clone, Copy)]
pub struct View<'a> {
    pub known: &'a Known<'a>,
    pub operand: &'a [u64],
    pub values: &'a [u8],
    pub from: u8,
    pub settling: bool,
    pub ghost long: { length values.now ≡ pairs_of known.now.sizes },
    pub ghost named: { Named (sketch known.now.sizes known.now.equations.now known.now.moves.now) operand.now },
}
