//! What is proved of the sides of solids. The function here does nothing: its contract is the law, which a caller's
//! proof can cite.
ghost use Rattle.cga_facing.specs.Facing.{MeshesFaceOut, SolidsFaceOut};

/// For all sizes above 0: each face of a solid is flat, and all other corners lie behind it, as seen from outside. So
/// faces look outwards, and the solid is convex. Likewise each mesh in the world.
pub fn solids_face_out()
    ensures corners { SolidsFaceOut }
    ensures meshes { MeshesFaceOut }
{}
