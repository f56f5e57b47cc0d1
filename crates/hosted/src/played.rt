// What is printed of a call.
use host::{HostOutcome, HostTwin};
use host_run_recorded::HostStopped;
use std::io;

// The last hexadecimal digit of n.
fn letter(n: u8) -> u8 {
    let d = n % 16;
    if d < 10 { b'0' + d } else { b'A' - 10 + d }
}

// The low word of a number, in hexadecimal, in a line of its own.
pub fn number(rt: &HostRuntime, n: u64) -> io::Result<()> {
    let [high, low] = ((n % 0x10000) as u16).to_be_bytes();
    let out = [
        letter(high / 16),
        letter(high),
        letter(low / 16),
        letter(low),
        b'\n',
    ];
    rt.write_all(&out)
}

pub fn byte(rt: &HostRuntime, n: u8) -> io::Result<()> {
    number(rt, n as u64)
}

// The answer in two decimal digits, PC, CC, and the last digit of cycles.
fn show(rt: &HostRuntime, answer: u8, pc: u16, cc: u8, cycles: u8) -> io::Result<()> {
    let [high, low] = pc.to_be_bytes();
    let out = [
        letter(answer / 10),
        letter(answer % 10),
        b' ',
        letter(high / 16),
        letter(high),
        letter(low / 16),
        letter(low),
        b' ',
        letter(cc / 16),
        letter(cc),
        b' ',
        letter(cycles),
        b'\n',
    ];
    rt.write_all(&out)
}

// The line of a call, and the twin after it.
pub fn shown(rt: &HostRuntime, outcome: HostOutcome) -> io::Result<HostTwin> {
    let twin = outcome.twin;
    show(
        rt,
        (outcome.answer % 100) as u8,
        twin.pc,
        twin.cc,
        (twin.cycles % 16) as u8,
    )?;
    Ok(twin)
}

// The line of a run, why it ended, and the number of the step that was refused.
pub fn stopped(rt: &HostRuntime, ran: HostStopped) -> io::Result<HostTwin> {
    let twin = shown(rt, ran.outcome)?;
    number(rt, ran.reason)?;
    number(rt, ran.number)?;
    Ok(twin)
}
