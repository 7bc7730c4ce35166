/// A solid that an instance draws into its scope. A shed, a gable and a hip are roofs.
#[derive(Clone, Copy, PartialEq, Eq, Debug)]
pub enum Primitive {
    Cube,
    Quad,
    Shed,
    Gable,
    Hip,
}
