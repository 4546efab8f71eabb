use crate::frame::Frame;
use crate::identified::Identified;
use crate::nmt::{Command, NmtMessage};
use crate::queue::Queue;
use std::test::Fail;

// Puts two elements through a queue in the lent memory, and says whether the first was a command and what came out.
fn through<T: Identified + Copy>(slots: &mut [T], a: T, b: T) -> Option<(bool, u32, u32)> {
    let mut queue = Queue::new(slots).ok()?;
    let _ = queue.put(a);
    let _ = queue.put(b);
    let command = queue.first_is_command();
    Some((
        command,
        queue.take()?.identifier(),
        queue.take()?.identifier(),
    ))
}

#[test]
fn numbers_wait_in_order(rt: HostRuntime) {
    assert_eq!(rt; through(&mut [9u32; 3], 0, 7), Some((true, 0, 7)));
}

#[test]
fn frames_wait_in_order(rt: HostRuntime) -> Result<(), Fail> {
    let sync = Frame::new(0x80, b"")?;
    let sign = Frame::new(0x705, b"\x05")?;
    assert_eq!(rt;
        through(&mut [sync; 2], sync, sign),
        Some((false, 0x80, 0x705))
    );
    Ok(())
}

#[test]
fn texts(rt: HostRuntime) -> Result<(), Fail> {
    let stop = NmtMessage {
        command: Command::Stop,
        node: 5,
    };
    let text = format!(in rt.alloc(); "{} is {stop}", stop.frame())?;
    assert_eq!(rt; text.as_str(), "0,2,5 is NMT stop to node 5");
    Ok(())
}
