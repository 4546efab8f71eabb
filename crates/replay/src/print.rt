// The lines that a replay prints.
use frames::frame::Frame;
use std::io::Write;

// A frame as a line of a candump log. The interface is bytes, which no `Display` can write.
pub(crate) fn print_frame<W: Write>(
    out: &mut W,
    micros: u64,
    interface: &[u8],
    frame: &Frame,
) -> anyhow::Result<()> {
    let seconds = micros / 1_000_000;
    let fraction = micros % 1_000_000;
    write!(out, "({seconds:010}.{fraction:06}) ")?;
    out.write_all(interface)?;
    let id = frame.id();
    write!(out, " {id:03X}#")?;
    for byte in frame.data() {
        write!(out, "{byte:02X}")?;
    }
    writeln!(out)?;
    Ok(())
}
