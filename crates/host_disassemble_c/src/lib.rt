// The text of one instruction, for hosts in C and Rust.
#![tactic(auto)]

ghost use Rattle.std.specs.Prelude.{◌≡◌, length};
ghost use Rattle.disassembly.specs.Disassembly.{disassembled_of, line_after};
ghost use Rattle.host_disassemble.specs.Results.{host_line};

use host_disassemble::HostLine;

// The same name again: C links the archive of this crate.
#[unsafe(no_mangle)]
pub extern "C" fn doorhawser_disassemble(mem: &[u8], at: u16, line: &mut [u8]) -> HostLine
    ensures { (result ≡ host_line (disassembled_of mem.now at (length line.old))) × (line.new ≡ line_after mem.now at line.old) }
{
    host_disassemble::doorhawser_disassemble(mem, at, line)
}
