// What the boot program prints: firmware in S-records is loaded, then a reset and a count of steps, none of them recorded.
ghost use Rattle.std.specs.Prelude.{◌≡◌, ◌+◌, ◌≤◌, length};
ghost use Rattle.std.proofs.lemmas.List.Edits.{sets};
ghost use Rattle.player.specs.Boots.{step_lines, run_lines, boot_lines, boot_printed};

use super::{put_call, put_refusal, zeroed_memory};
use answers::Refusal;
use machine::{Machine, Settings};
use registers::Flags;

// ram_top, flags and the count of steps, before an S-record file.
const HEAD: usize = 5;

// The longest input: a head and 1 MiB of text.
const LONGEST: usize = HEAD + 0x10_0000;

// Makes so many steps, writes a line for each from a place on, and returns where they end.
fn put_steps(
    out: &mut [u8],
    at: usize,
    mem: &mut [u8],
    machine: Machine,
    settings: Settings,
    count: u16,
) -> usize
    requires { at ≤ 33 }
    ensures { (result ≡ at + length (step_lines settings count mem.old machine)) × (out.new ≡ sets out.old at (step_lines settings count mem.old machine)) }
{
    let mut current = machine;
    let mut used = at;
    for _made in 0..count {
        let stepped = calls::step(mem, current, settings);
        current = stepped.machine;
        used += put_call(out, used, stepped.answer, current);
    }
    used
}

// A reset and so many steps. A journal's room would bound their count, so nothing is recorded.
fn put_run(out: &mut [u8], mem: &mut [u8], settings: Settings, count: u16) -> usize
    ensures { (result ≡ length (run_lines settings count mem.old)) × (out.new ≡ sets out.old 0 (run_lines settings count mem.old)) }
{
    let reset = calls::reset(mem, Machine::fresh(), settings);
    let at = put_call(out, 0, reset.answer, reset.machine);
    put_steps(out, at, mem, reset.machine, settings, count)
}

// The text of an S-record file, with what the head says.
fn boot_text(text: &[u8], out: &mut [u8], settings: Settings, count: u16) -> usize
    ensures { (result ≡ length (boot_lines settings count text.now)) × (out.new ≡ sets out.old 0 (boot_lines settings count text.now)) }
{
    let mut mem = zeroed_memory();
    match srecord::read(&mut mem, text) {
        // The refusal ends here: its number is printed.
        Err(refusal) => put_refusal(out, refusal),
        Ok(_) => put_run(out, &mut mem, settings, count),
    }
}

// Writes what the boot program prints at the front of `out`, and returns its length.
pub fn boot(input: &[u8], out: &mut [u8]) -> usize
    ensures { (result ≡ length (boot_printed input.now)) × (out.new ≡ sets out.old 0 (boot_printed input.now)) }
{
    if input.len() < HEAD {
        return put_refusal(out, Refusal::Malformed);
    }
    if LONGEST < input.len() {
        return put_refusal(out, Refusal::Malformed);
    }
    let ram_top = runfile::word(input, 0);
    let count = runfile::word(input, 3);
    let text = &input[HEAD..];
    // The number of the flags is the input's.
    match input[2] {
        0 => boot_text(text, out, Settings::new(ram_top, Flags::Bought), count),
        1 => boot_text(text, out, Settings::new(ram_top, Flags::Manual), count),
        _ => put_refusal(out, Refusal::Malformed),
    }
}
