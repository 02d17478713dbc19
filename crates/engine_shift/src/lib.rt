// Which pairs of a row seed a shift: those that a change touches, and those that lean on a pair of an earlier block that went to the
// own value of the row's block.
#![tactic(auto)]

ghost use Rattle.std.specs.Prelude.{◌≡◌, true, not, List, ℕ, ◌+◌, ◌*◌, ◌/◌, ◌≤◌, ◌<◌, length, get_or, eqb};
ghost use Rattle.lists.specs.Lists.{is, any};
ghost use Rattle.rules.specs.Moves.{source, target};
ghost use Rattle.rules.specs.Batch.{changes_ok};
ghost use Rattle.rules.specs.Rooms.{pairs_of};
ghost use Rattle.words.specs.Words.{changes_of};
ghost use Rattle.engine_table.specs.Table.{table_in, Drawn};
ghost use Rattle.engine_rows.specs.Rooms.{Bits, Told};
ghost use Rattle.engine_shift.specs.Adds.{Adds};
ghost use Rattle.engine_shift.specs.Seeds.{of_kind, touches, touches_at, join_seeds, step_seeds, Shows};
ghost use Rattle.engine_shift.specs.RowParts.{RowOf};
ghost use Rattle.engine_shift.specs.ShiftRows.{TellsShift};

use engine_index::{Known, chains};
use engine_table::shapes;
use engine_table::shapes::Shape;
use row::Row;
use rules::{Action, Equation, Variable};

mod row;

// The row of the variable x, as the row of an equation in this block sees it.
fn row_of<'a>(known: &Known, values: &'a [u8], marks: &'a [u8], block: u8, x: Variable) -> Row<'a>
    requires x_in_bounds { x.0 < length known.now.equations.now }
    requires row_in_bounds { (x.0 * known.now.sizes.states + known.now.sizes.states ≤ length values.now)
        × (x.0 * known.now.sizes.states + known.now.sizes.states ≤ length marks.now) }
    ensures { RowOf known.now.sizes known.now.equations.now values.now marks.now block x.0 result }
{
    let at = x.0 as usize;
    let n = known.sizes.states as usize;
    Row {
        values: engine_rows::row_in(values, at, n),
        marks: engine_rows::row_in(marks, at, n),
        earlier: words::equation_in(known.equations[at]).block < block,
    }
}

// The changes that count for a diamond or a box: those of moves with its action, of which it looks at inserts where it turns by what it
// gains, and else at deletes.
#[derive(Clone, Copy, Debug, PartialEq, Eq)]
struct Kind {
    action: Action,
    gaining: bool,
}

// Is a change of the kind that counts?
fn of_kind(kind: Kind, w: u32) -> bool
    ensures { result ≡ of_kind kind.gaining kind.action.0 w }
{
    (words::action_of(words::move_of(w)).0 == kind.action.0) & (words::inserts(w) == kind.gaining)
}

// Is there such a change?
fn any_of_kind(changes: &[u32], kind: Kind) -> bool
    ensures { result ≡ any (of_kind kind.gaining kind.action.0) changes.now }
{
    let mut found = false;
    for w in changes {
        found |= of_kind(kind, *w);
    }
    found
}

// Does the change touch the moves that count, by an insert, or by a delete of a move to a pair of the row whose old value is not b?
fn touches(row: Row, kind: Kind, b: u8, w: u32) -> bool
    requires { target (w / 2) < length row.values.now }
    ensures { result ≡ touches row.entry.values.now row.entry.marks.now row.entry.earlier kind.gaining b kind.action.0 0 w }
{
    let t = words::target_of(words::move_of(w)).0 as usize;
    of_kind(kind, w) & (kind.gaining | row.was_not(t, b))
}

// Adds the states whose moves a change touches so.
fn add_changes(changes: &[u32], row: Row, kind: Kind, b: u8, bad: &mut [u8])
    requires inside { (i : ℕ) → i < length changes.now
        → (source (get_or changes.now i 0 / 2) < length bad.old) × (target (get_or changes.now i 0 / 2) < length row.values.now) }
    ensures { Adds (touches_at changes.now row.entry.values.now row.entry.marks.now row.entry.earlier kind.gaining b kind.action.0 0) bad.old bad.new }
{
    for w in changes {
        let hit = touches(row, kind, b, *w);
        let s = words::source_of(words::move_of(*w)).0 as usize;
        bad[s] = ((bad[s] == 1) | hit) as u8;
    }
}

// Which states an "or" or an "and" seeds: none where neither operand may have gone.
fn shift_join(known: &Known, values: &[u8], marks: &[u8], e: Equation, bad: &mut [u8]) -> bool
    requires bad_len { length bad.old ≡ known.now.sizes.states }
    requires operands_in_bounds { (e.first < length known.now.equations.now) × (e.second < length known.now.equations.now) }
    requires first_in_bounds { (e.first * known.now.sizes.states + known.now.sizes.states ≤ length values.now)
        × (e.first * known.now.sizes.states + known.now.sizes.states ≤ length marks.now) }
    requires second_in_bounds { (e.second * known.now.sizes.states + known.now.sizes.states ≤ length values.now)
        × (e.second * known.now.sizes.states + known.now.sizes.states ≤ length marks.now) }
    ensures { Shows known.now.sizes.states (join_seeds known.now.sizes known.now.equations.now values.now marks.now e.first e.second e.block e.kind)
        bad.new result }
{
    let one = row_of(known, values, marks, e.block, Variable(e.first));
    let two = row_of(known, values, marks, e.block, Variable(e.second));
    let first = one.may_have_gone();
    let second = two.may_have_gone();
    if !(first | second) {
        return false;
    }
    bad.fill(0);
    if first {
        one.add_gone(e.kind, bad);
    }
    if second {
        two.add_gone(e.kind, bad);
    }
    true
}

// Which states a diamond or a box seeds: none where no change is of the kind that counts and its operand may not have gone.
fn shift_step(
    known: &Known,
    changes: &[u32],
    values: &[u8],
    marks: &[u8],
    e: Equation,
    bad: &mut [u8],
) -> bool
    requires changes_value { (changes_ok known.now.sizes (changes_of changes.now) ≡ true) × (length bad.old ≡ known.now.sizes.states) }
    requires names_in_bounds { (e.first < known.now.sizes.actions) × (e.second < length known.now.equations.now) }
    requires row_in_bounds { (e.second * known.now.sizes.states + known.now.sizes.states ≤ length values.now)
        × (e.second * known.now.sizes.states + known.now.sizes.states ≤ length marks.now) }
    ensures { Shows known.now.sizes.states (step_seeds known.now.sizes known.now.equations.now known.now.moves.now changes.now values.now marks.now
        (is (not (eqb e.kind 1)) (eqb e.operator 7)) e.first e.second e.block e.kind) bad.new result }
{
    let kind = Kind {
        action: Action(e.first),
        gaining: (e.operator == 7) != (e.kind == 1),
    };
    let row = row_of(known, values, marks, e.block, Variable(e.second));
    let may = row.may_have_gone();
    if !(any_of_kind(changes, kind) | may) {
        return false;
    }
    bad.fill(0);
    add_changes(changes, row, kind, e.kind, bad);
    if may {
        let goes = chains::chains_in(known);
        chains::set_leading(goes, kind.action, |t| row.went(t, e.kind), 1, bad);
    }
    true
}

// Which pairs of the row of y seed a shift. The row is passed over where it can seed nothing; it is the caller's memory, so the answer
// says whether it was told. Values and marks are cut into a `Row` below, a row at a time, and meet the changes here alone.
pub fn shift_row(
    known: &Known,
    changes: &[u32],
    values: &[u8],
    marks: &[u8],
    y: Variable,
    bad: &mut [u8],
) -> bool
    requires changes_value { changes_ok known.now.sizes (changes_of changes.now) ≡ true }
    requires y_lt_variables { (y.0 < known.now.sizes.variables) × ((length values.now ≡ pairs_of known.now.sizes) × ((length marks.now ≡ pairs_of known.now.sizes) × (length bad.old ≡ known.now.sizes.states))) }
    requires bits { Bits values.now }
    ensures { (labels : List ℕ) → Drawn (table_in known.now.sizes labels known.now.equations.now known.now.moves.now)
        → Told (table_in known.now.sizes labels known.now.equations.now known.now.moves.now) values.now marks.now y.0
        → TellsShift (table_in known.now.sizes labels known.now.equations.now known.now.moves.now) changes.now values.now marks.now y.0 bad.new result }
{
    let e = words::equation_in(known.equations[y.0 as usize]);
    match shapes::shape_of(e.operator) {
        Shape::Constant | Shape::Label => false,
        Shape::Join => shift_join(known, values, marks, e, bad),
        Shape::Step => shift_step(known, changes, values, marks, e, bad),
    }
}
