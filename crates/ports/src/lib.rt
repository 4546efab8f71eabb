// Ports: where frames wait for the bus. All kinds have one meaning.
#![tactic(auto)]

pub mod gap_port;
pub mod hand_over;
pub mod mailbox;
pub mod port;
pub mod ring_port;
pub mod trials;
