use crate::shape::Shape;
use crate::shape_fault::ShapeFault;
use cga_word::Primitive;

/// What has become of a shape.
pub type Kind = cga_order::Kind<ShapeFault, Primitive>;

/// A member of a configuration: a shape, and what has become of it.
pub type Placed = cga_order::Placed<Shape, ShapeFault, Primitive>;
