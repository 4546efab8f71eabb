ghost use Rattle.std.specs.Prelude.{◌≡◌, ◌≤◌, take};
ghost use Rattle.frames.specs.Bytes.{padded};

pub mod methods;

// A CAN frame with a base identifier. No other frame exists: the identifier is at most 2047, at most 8 bytes count,
// and the places behind them hold zeros, so that frames of the same content are the same value.
// A length beside an array, and no `Vec`: a frame is copied, no call takes memory, and the zeros behind the bytes make frames of
// one content one value.
#[derive(Clone, Copy)]
pub struct Frame {
    pub(crate) id: u16,
    pub(crate) len: u8,
    pub(crate) bytes: [u8; 8],
    ghost id_ok: { id ≤ 2047 },
    ghost len_ok: { len ≤ 8 },
    ghost rest_ok: { padded (take len bytes) ≡ bytes },
}
