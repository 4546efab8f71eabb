// Puts a fixed row of frames through each kind of port, and prints what leaves it at which tick.
#![tactic(auto)]

use frames::frame::Frame;
use frames::nmt::{Command, NmtMessage};
use frames::queue::Queue;
use frames::sdo::{Access, Request, Size};
use ports::gap_port::GapPort;
use ports::hand_over::hand_over;
use ports::mailbox::Mailbox;
use ports::port::Port;
use std::io;

// Commands and requests in turn, as a start-up sends them.
fn fixed_row() -> [Frame; 5] {
    let reset = NmtMessage {
        command: Command::ResetCommunication,
        node: 0,
    };
    let read = Request {
        node: 5,
        index: 0x1000,
        sub: 0,
        access: Access::Read,
    };
    let start = NmtMessage {
        command: Command::Start,
        node: 5,
    };
    let write = Request {
        node: 5,
        index: 0x2000,
        sub: 1,
        access: Access::Write(Size::One, 7),
    };
    let stop = NmtMessage {
        command: Command::Stop,
        node: 0,
    };
    [
        reset.frame(),
        read.frame(),
        start.frame(),
        write.frame(),
        stop.frame(),
    ]
}

// At each tick the row fills the port and the port empties to the bus, each until one side declines.
fn bench<R: Port, P: Port + Drop, B: Port>(
    rt: &HostRuntime,
    row: &mut R,
    mut port: P,
    bus: &mut B,
) -> io::Result<()> {
    for tick in 0..6u8 {
        hand_over(row, &mut port);
        hand_over(&mut port, bus);
        while let Some(frame) = bus.take() {
            println!(rt; "tick={tick} out={frame}")?;
        }
        port.tick();
    }
    Ok(())
}

fn run<P: Port + Drop>(rt: &HostRuntime, name: &str, port: P) -> io::Result<()> {
    rt.println(name)?;
    let frames = fixed_row();
    let mut waiting = frames;
    let mut left = frames;
    let mut row = Queue::new(&mut waiting).unwrap();
    for frame in frames {
        let _ = row.put(frame);
    }
    let mut bus = Queue::new(&mut left).unwrap();
    bench(rt, &mut row, port, &mut bus)
}

fn main(rt: HostRuntime) -> io::Result<()> {
    let blank = fixed_row()[0];
    let mut one = [blank; 1];
    run(&rt, "ring of 1", Queue::new(&mut one).unwrap())?;
    let mut many = [blank; 64];
    run(&rt, "ring of 64", Queue::new(&mut many).unwrap())?;
    run(&rt, "mailbox", Mailbox::new(blank))?;
    let gapped = GapPort::new(Queue::new(&mut many).unwrap(), 11);
    run(&rt, "gap of 2 over ring of 64", gapped)?;
    let gapped = GapPort::new(Mailbox::new(blank), 10);
    run(&rt, "gap of 1 over mailbox", gapped)
}
