// CAN frames, the CANopen messages that a network start-up sends and hears, and the queue in which frames wait.
#![tactic(auto)]

pub mod error_control;
pub mod frame;
pub mod identified;
pub mod nmt;
pub mod queue;
pub mod refusal;
pub mod sdo;
#[cfg(test)]
mod tests;
pub mod trials;
pub mod unknown_code;
