// A force along three axes, each a word in two's complement.
ghost use Rattle.std.specs.Prelude.{◌^◌, ◌<◌};

mod joined;

// The bound stands in the type, since a law speaks of every value of it.
#[derive(Clone, Copy, PartialEq, Eq)]
pub struct Force {
    pub x: u32,
    pub y: u32,
    pub z: u32,
    ghost fits: { (x < 2 ^ 32) × (y < 2 ^ 32) × (z < 2 ^ 32) },
}
