// A root: the copy of a vertex on the board that it belongs to.
ghost use Rattle.std.specs.Prelude.{◌<◌};

// In a file of its own: the contracts of `roots` name theory that names this struct.
#[derive(Clone, Copy)]
pub(crate) struct Root {
    pub(crate) board: u8,
    pub(crate) vertex: u16,
    ghost low: { (board < 8) × (vertex < 1024) },
}

// By hand, since a struct with a ghost field cannot derive it.
impl Default for Root {
    fn default() -> Root {
        Root {
            board: 0,
            vertex: 0,
        }
    }
}
