// Logs of CAN frames in the format of `candump -L`: the frame that a line says, and the milliseconds between time stamps.
#![tactic(auto)]

pub mod clock;
pub mod entry;
mod number;
mod reader;
pub mod ticks;

pub use clock::{Clock, Slip};
pub use entry::Entry;
pub use reader::{interface, read_line};
pub use ticks::Ticks;
