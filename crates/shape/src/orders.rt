// The order in which the axes of a box are compared.
ghost use Rattle.shape.specs.Orders.{EachOnce};

use super::Axis;

// The three axes in the order in which they are compared: for a box the longest side first, of equal sides z before y before x.
#[derive(Clone, Copy)]
pub struct AxisOrder {
    pub first: Axis,
    pub second: Axis,
    pub third: Axis,
    ghost each_once: { EachOnce first second third },
}
