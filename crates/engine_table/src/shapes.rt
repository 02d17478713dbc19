// The shapes of equations, by the numbers of their operators.
#![tactic(auto)]

ghost use Rattle.engine_table.specs.Shapes.{Shaped};

// A constant; a proposition or its negation; an "or" or an "and"; a diamond or a box.
#[derive(Clone, Copy, Debug, PartialEq, Eq)]
pub enum Shape {
    Constant,
    Label,
    Join,
    Step,
}

// The shape of an equation with this operator.
pub fn shape_of(operator: u8) -> Shape
    ensures { Shaped operator result }
{
    match operator {
        0..=1 => Shape::Constant,
        2..=3 => Shape::Label,
        4..=5 => Shape::Join,
        _ => Shape::Step,
    }
}
