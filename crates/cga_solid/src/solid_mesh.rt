use cga_fraction::List;
use cga_frame::Point;

/// World points, and faces by the numbers of their points in the order of the list, from 1 on as in an OBJ file. A
/// face's points run against the clock as seen from outside.
#[derive(Drop)]
pub struct SolidMesh {
    pub vertices: List<Point>,
    pub faces: List<List<u32>>,
}
