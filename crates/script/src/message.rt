// The bytes of a frame that a line says was heard.
use sheet::Few;

// No frame has more than eight; nine stand for too many.
pub type Data = Few<u8, 9>;
