/// Why an asset is refused, with the number of the line, counted from 1. After 4,294,967,295 lines the number stays.
#[derive(Clone, Copy, Debug, PartialEq, Eq)]
pub enum AssetFault {
    LineTooLong(u32),
    /// The first word is none that an asset's line begins with.
    UnknownLine(u32),
    BadVertex(u32),
    BadFace(u32),
    /// There are more vertices than an asset may have.
    TooManyVertices(u32),
    TooManyFaces(u32),
    /// No line is faulty, and there is no face.
    NoFace,
}
