// A frame of a log, with its time stamp in microseconds.
use frames::frame::Frame;

#[derive(Clone, Copy)]
pub struct Entry {
    pub micros: u64,
    pub frame: Frame,
}

// The words of a line that may say a frame.
#[derive(Clone, Copy)]
pub(crate) struct Words<'a> {
    pub(crate) stamp: &'a [u8],
    pub(crate) interface: &'a [u8],
    pub(crate) message: &'a [u8],
}
