// The NMT master: the checks of a slave's try, the entry of each slave, the network, the public calls, whole rows of calls, and the
// laws of every session.
#![tactic(auto)]

pub mod calls;
pub mod checks;
pub mod laws;
pub mod network;
pub mod nmt_master;
pub mod rows;
pub mod stage;
pub mod table;
pub mod types;

pub use calls::{Answer, Call, Exchange, Refusal, Use, Worked};
pub use nmt_master::Master;
pub use rows::{Session, run_session};
pub use types::Letter;
