// What a line of a session asks for.
pub use crate::message::Data;

#[derive(Clone, Copy)]
pub enum Line {
    // a frame comes over the bus
    Heard { id: u32, data: Data },
    // so many works, takes or ticks
    Work(u32),
    Take(u32),
    Tick(u32),
}

// What stands before the '=' of a line: a value and no closure, since the definitions name the keys.
#[derive(Clone, Copy)]
pub(crate) enum Key {
    Heard,
    Work,
    Take,
    Tick,
}
