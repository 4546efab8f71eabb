// Sessions: the text of one, and its run on a fresh master whose port is a gap port on a ring of 64.
#![tactic(auto)]

pub mod lines;
pub mod message;
mod notes;
mod reader;
mod report;
mod ring;
mod session;
pub mod style;
pub mod text;

pub use lines::Line;
pub use message::Data;
pub use reader::{next_line, read_line};
pub use ring::{RingMaster, ring_master, ring_places};
pub use session::{play, play_silently, print_report, run};
pub use sheet::cut;
pub use style::{Style, UnknownStyle};
pub use text::Lines;
