// Prints a line for each instruction of the opcode table: page, opcode, mnemonic, mode, size and base cycles. Then prints the same from the
// opcodes' bit fields.
#![tactic(auto)]

use opcodes::{Entry, Mode, Page};
use std::io;

fn name_of(mode: Mode) -> &'static str {
    match mode {
        Mode::Inherent => "inherent",
        Mode::Immediate8 | Mode::Immediate16 => "immediate",
        Mode::Direct => "direct",
        Mode::Indexed => "indexed",
        Mode::Extended => "extended",
        Mode::Relative8 | Mode::Relative16 => "relative",
    }
}

// Of the branches those of more than two bytes are the long ones.
fn print_entry(rt: &HostRuntime, prefix: u8, code: u8, entry: Entry) -> io::Result<()> {
    let name = mnemonics::mnemonic(entry.op, entry.size > 2);
    let mode = name_of(entry.mode);
    println!(rt;
        "{prefix:02X} {code:02X} {name} {mode} {} {}",
        entry.size, entry.cycles
    )
}

// The prefix is the byte before the opcodes of the page, 00 where there is none. An empty place has no line.
fn print_page<F: Fn(u8) -> Option<Entry>>(rt: &HostRuntime, prefix: u8, place: F) -> io::Result<()>
    requires { F.IsAlwaysCallable place }
{
    for code in 0..=255 {
        if let Some(entry) = place(code) {
            print_entry(rt, prefix, code, entry)?;
        }
    }
    Ok(())
}

fn main(rt: HostRuntime) -> io::Result<()> {
    let [plain, ten, eleven] = pages::all();
    print_page(&rt, 0x00, |code| plain[code as usize])?;
    print_page(&rt, 0x10, |code| ten[code as usize])?;
    print_page(&rt, 0x11, |code| eleven[code as usize])?;
    print_page(&rt, 0x00, |code| fields::place(Page::Plain, code))?;
    print_page(&rt, 0x10, |code| fields::place(Page::Ten, code))?;
    print_page(&rt, 0x11, |code| fields::place(Page::Eleven, code))
}
