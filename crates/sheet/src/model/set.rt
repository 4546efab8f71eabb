// One value that is written to a slave when it boots: `size` bytes to an object of its dictionary.
ghost use Rattle.std.specs.Prelude.{◌^◌, ◌<◌, ◌≤◌};

#[derive(Clone, Copy, Debug, PartialEq, Eq)]
pub struct Set {
    pub index: u16,
    pub sub: u8,
    // 1 to 4: a number of bytes and no kind, as it is written, read and taken to a power
    pub size: u8,
    pub value: u32,
    ghost sized: { (1 ≤ size) × (size ≤ 4) },
    ghost fits: { value < 256 ^ size },
}
