// Dumps: a machine with its memory as bytes, written and read; and what differs between two of them, in words.
// The layout is in docs/COMPARE.md.
#![tactic(auto)]

mod lines;
mod tells;

ghost use Rattle.std.specs.Prelude.{◌≡◌};
ghost use Rattle.dump.specs.Dumps.{is_dump, dumped, output_dumped, undumped, memory_undumped};

use answers::Refusal;
use machine::{ARMED, CYCLES, HEADER, INSTRUCTIONS, Machine, WAIT};
pub use tells::tell;

const MEMORY: usize = 0x10000;

// The bytes of a dump.
pub const DUMP: usize = HEADER + MEMORY;

// Writes the dump of a machine and its memory at the front of `out`, and returns how many bytes it has.
pub fn write(machine: Machine, mem: &[u8], out: &mut [u8]) -> Result<usize, Refusal>
    ensures { (result ≡ dumped mem.now out.old) × (out.new ≡ output_dumped machine mem.now out.old) }
{
    if mem.len() != MEMORY {
        return Err(Refusal::MemoryLength);
    }
    if out.len() < DUMP {
        return Err(Refusal::OutputShort);
    }
    text::put(out, 0, &machine::front_of(machine));
    text::put(out, CYCLES, &machine::counter_of(machine.cycles));
    text::put(
        out,
        INSTRUCTIONS,
        &machine::counter_of(machine.instructions),
    );
    text::put(out, HEADER, mem);
    Ok(DUMP)
}

pub fn is_dump(d: &[u8]) -> bool
    ensures { result ≡ is_dump d.now }
{
    d.len() == DUMP && d[WAIT] < 3 && d[ARMED] < 2
}

// Reads a dump: its memory into `mem`, its machine is returned.
pub fn read(d: &[u8], mem: &mut [u8]) -> Result<Machine, Refusal>
    ensures { (result ≡ undumped d.now mem.old) × (mem.new ≡ memory_undumped d.now mem.old) }
{
    if mem.len() != MEMORY {
        return Err(Refusal::MemoryLength);
    }
    if !is_dump(d) {
        return Err(Refusal::Malformed);
    }
    // No `copy_from_slice`: it calls memmove, as in `text::put`.
    text::put(mem, 0, &d[HEADER..]);
    Ok(machine::machine_of(d))
}
