// Milliseconds that end one after the other, the first of them 1000 microseconds after `since`.
ghost use Rattle.std.specs.Prelude.{◌+◌, ◌*◌, ◌^◌, ◌<◌};

pub mod methods;

#[derive(Clone, Copy)]
pub struct Ticks {
    pub(crate) since: u64,
    pub(crate) count: u32,
    ghost fits: { since + count * 1000 < 2 ^ 64 },
}
