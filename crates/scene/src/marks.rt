// The marks that stand before a scene's records.

pub(crate) const HEADER: [u8; 2] = [b'S', b'C'];

pub(crate) const CELL: [u8; 2] = [b'C', b'E'];

pub(crate) const END: [u8; 2] = [b'E', b'N'];
