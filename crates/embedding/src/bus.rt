// Stands in for the CAN driver and the one device on the cable: node 5, of device type 402.
use frames::frame::Frame;
use frames::nmt::{Command, NmtMessage};

// What the device can say, in bytes: a driver hands these on, and what they mean is the master's to read.
#[derive(Clone, Copy)]
pub enum Received {
    // on 705h: 00h is a boot-up, the rest are states
    State(u8),
    // on 585h: the answer to the read of 1000h:00
    DeviceType,
}

#[derive(Clone, Copy, Drop)]
pub struct Bus {
    next: Option<Received>,
    // its state as a heartbeat says it
    state: u8,
    since_heartbeat: u8,
}

impl Bus {
    pub fn new() -> Bus {
        Bus {
            next: None,
            state: 0x7F,
            since_heartbeat: 0,
        }
    }

    // The driver sends a frame, and the device does what it is told.
    pub fn send(&mut self, frame: &Frame) {
        if let Some(message) = NmtMessage::read(frame) {
            if !message.reaches(5, 1) {
                return;
            }
            match message.command {
                Command::Start => self.state = 0x05,
                Command::Stop => self.state = 0x04,
                _ => {
                    self.state = 0x7F;
                    self.next = Some(Received::State(0x00));
                }
            }
        } else if frame.id() == 0x605 {
            self.next = Some(Received::DeviceType);
        }
    }

    // What the driver received in this millisecond. The device sends a heartbeat every 21 of them.
    pub fn receive(&mut self) -> Option<Received> {
        let now = self.next.take();
        if self.since_heartbeat < 20 {
            self.since_heartbeat += 1;
            return now;
        }
        self.since_heartbeat = 0;
        now.or(Some(Received::State(self.state)))
    }
}
