// For hosts in C and Rust: the text of one instruction.
#![tactic(auto)]

ghost use Rattle.std.specs.Prelude.{◌≡◌, length};
ghost use Rattle.disassembly.specs.Disassembly.{disassembled_of, line_after};
ghost use Rattle.host_disassemble.specs.Results.{host_line};

// How many bytes the instruction has, 0 where it is refused.
// C's struct: a count and a refusal's number, and no `Result`.
#[repr(C)]
#[derive(Clone, Copy)]
pub struct HostLine {
    pub count: u64,
    pub answer: u64,
}

#[unsafe(no_mangle)]
pub extern "C" fn doorhawser_disassemble(mem: &[u8], at: u16, line: &mut [u8]) -> HostLine
    ensures { (result ≡ host_line (disassembled_of mem.now at (length line.old))) × (line.new ≡ line_after mem.now at line.old) }
{
    match disassembly::disassemble(mem, at, line) {
        Ok(n) => HostLine {
            count: n as u64,
            answer: 0,
        },
        Err(refusal) => HostLine {
            count: 0,
            answer: refusal.number() as u64,
        },
    }
}
