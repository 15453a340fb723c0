// What a scene's header says about its cells.

// Corners a cell: three in version 1, the only one.
pub(crate) const CORNERS: u8 = 3;

#[derive(Clone, Copy)]
pub(crate) struct Head {
    pub corners: u8,
    pub used: usize,
    pub boards: u8,
    pub vertices: u16,
    pub cells: u16,
}
