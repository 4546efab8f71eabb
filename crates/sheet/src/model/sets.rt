// A slave's sets, in the order in which they are written: at most 32.
use crate::few::Few;
use crate::model::set::Set;

pub type Sets = Few<Set, 32>;
