// Assignment sheets: which slaves a master has, and how each is checked, set up and watched.
#![tactic(auto)]

mod before;
mod cursor;
pub mod digits;
pub mod faults;
pub mod few;
pub mod keys;
pub mod line;
pub mod model;
mod reader;
mod writer;

pub use digits::number;
pub use faults::{DigitsFault, Fault, Layer, LineFault, TooShort};
pub use few::Few;
pub use keys::Key;
pub use line::cut;
pub use model::set::Set;
pub use model::sets::Sets;
pub use model::sheet::Sheet;
pub use model::slave::Slave;
