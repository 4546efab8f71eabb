// A controller in small: its own port, a tick of 1 ms, and the main loop.
#![tactic(auto)]

mod bus;
mod transmit;

use bus::{Bus, Received};
use master::{Master, Worked};
use ports::gap_port::GapPort;
use ports::port::Port;
use sheet::Sheet;
use std::fs;
use transmit::TransmitBuffer;

// Frames that the driver received go to the master as they are. It refuses what is no frame, and looks at the rest.
fn hear<P: Port>(master: &mut Master<P>, received: Received) {
    let _ = match received {
        Received::State(state) => master.heard(0x705, &[state]),
        Received::DeviceType => {
            master.heard(0x585, &[0x4B, 0x00, 0x10, 0x00, 0x92, 0x01, 0x00, 0x00])
        }
    };
}

// Puts what is due and sends it, until nothing is due or the port holds a frame back. A frame more than the slaves can be
// owed in one millisecond is left for the next.
fn work<P: Port>(master: &mut Master<P>, bus: &mut Bus) {
    for _ in 0..128 {
        let worked = master.work();
        let Some(frame) = master.take() else {
            return;
        };
        bus.send(&frame);
        if !matches!(worked, Ok(Worked::Put)) {
            return;
        }
    }
}

// The lamp and the letters, after a change.
fn show<P: Port>(rt: &HostRuntime, ms: u32, master: &Master<P>) -> anyhow::Result<()> {
    let lamp = if master.halted() {
        "red: halted, look at the letters and begin anew"
    } else if master.go() {
        "green"
    } else {
        "amber"
    };
    println!(rt; "{ms} ms: lamp {lamp}")?;
    for slave in master.sheet().slaves.as_slice() {
        let node = slave.node;
        if let Ok(Some(letter)) = master.result(node) {
            println!(rt; "{ms} ms: node {node} {letter}")?;
        }
    }
    Ok(())
}

fn run<P: Port + Drop>(rt: &HostRuntime, sheet: Sheet, port: P) -> anyhow::Result<()> {
    let inhibit = sheet.inhibit;
    let mut master = Master::new(sheet, GapPort::new(port, inhibit));
    let mut bus = Bus::new();
    let mut shown = (false, false);
    show(rt, 0, &master)?;
    for ms in 1..100u32 {
        if let Some(received) = bus.receive() {
            hear(&mut master, received);
        }
        master.tick();
        work(&mut master, &mut bus);
        let now = (master.go(), master.halted());
        if now != shown {
            shown = now;
            show(rt, ms, &master)?;
        }
    }
    Ok(())
}

fn main(rt: HostRuntime) -> anyhow::Result<()> {
    let text = fs::read(&rt, "sheet.txt")?;
    let mut sheet = Sheet::empty(rt.alloc())?;
    if let Err(fault) = sheet.read(text.as_slice()) {
        println!(rt; "{fault}")?;
        return Ok(());
    }
    run(&rt, sheet, TransmitBuffer::new())
}
