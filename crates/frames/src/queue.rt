ghost use Rattle.std.specs.Prelude.{◌<◌, ◌≤◌, length};

pub mod methods;

// A first-in, first-out queue in lent memory of 1 to 64 places. `len` elements wait, the first at `head`, the others in
// the places after it; the first place follows the last.
// No `VecDeque`: the memory is lent, and no call takes any.
#[derive(Drop)]
pub struct Queue<'a, T> {
    slots: &'a mut [T],
    head: usize,
    len: usize,
    ghost head_ok: { head < length slots.now },
    ghost len_ok: { len ≤ length slots.now },
    ghost slots_ok: { length slots.now ≤ 64 },
}
