// Three 32-bit words: how every element travels in a scene and in a frame.
#[derive(Clone, Copy, PartialEq, Eq)]
pub struct Words {
    pub x: u32,
    pub y: u32,
    pub z: u32,
}
