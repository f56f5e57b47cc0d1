// Calls at the limits of memory and output.
use super::printed::{print_loaded, print_written};
use std::io;

// A memory of 65,535 bytes is read into and written from.
fn short_memory(rt: &HostRuntime) -> io::Result<()> {
    let mut mem = [1u8; 65535];
    print_loaded(rt, srecord::read(&mut mem, b"S9030000FC\n"))?;
    let mut text = [b'.'; 86];
    print_written(rt, srecord::write(&[1u8; 65535], 0, &mut text))
}

// A memory whose last byte alone is not zero, written into a part and printed with it.
fn write_into(rt: &HostRuntime, out: &mut [u8]) -> io::Result<()> {
    let mut mem = [0u8; 65536];
    mem[65535] = 255;
    print_written(rt, srecord::write(&mem, 0x1234, out))?;
    rt.write_all(out)
}

// Its text of 86 characters goes into an output of 85, of 86 and of 88.
pub fn answer(rt: &HostRuntime) -> io::Result<()> {
    short_memory(rt)?;
    write_into(rt, &mut [b'.'; 85])?;
    rt.write_all(b"\n")?;
    write_into(rt, &mut [b'.'; 86])?;
    write_into(rt, &mut [b'.'; 88])?;
    rt.write_all(b"\n")
}
