// Dumps, and what differs between two twins, for hosts in C and Rust.
// An archive exports functions of its own: so each stands here again, and calls the one of `host_compare`.
#![tactic(auto)]

ghost use Rattle.std.specs.Prelude.{cond, ◌&&◌, ◌≡◌};
ghost use Rattle.difference.specs.Compare.{compared, list_after};
ghost use Rattle.dump.specs.Dumps.{dumped, output_dumped, undumped, memory_undumped};
ghost use Rattle.host.specs.Numbers.{is_twin};
ghost use Rattle.host.specs.Structs.{machine_from};
ghost use Rattle.host_compare.specs.Results.{unnamed_count, host_counted, host_undumped};

use host::HostTwin;
use host_compare::{HostCounted, HostUndumped};

#[unsafe(no_mangle)]
pub extern "C" fn doorhawser_dump(mem: &[u8], twin: HostTwin, out: &mut [u8]) -> HostCounted
    ensures { (result ≡ cond (is_twin twin) (host_counted (dumped mem.now out.old)) unnamed_count) × (out.new ≡ cond (is_twin twin) (output_dumped (machine_from twin) mem.now out.old) out.old) }
{
    host_compare::doorhawser_dump(mem, twin, out)
}

#[unsafe(no_mangle)]
pub extern "C" fn doorhawser_undump(mem: &mut [u8], dump: &[u8]) -> HostUndumped
    ensures { (result ≡ host_undumped (undumped dump.now mem.old)) × (mem.new ≡ memory_undumped dump.now mem.old) }
{
    host_compare::doorhawser_undump(mem, dump)
}

#[unsafe(no_mangle)]
pub extern "C" fn doorhawser_compare(
    left_mem: &[u8],
    left: HostTwin,
    right_mem: &[u8],
    right: HostTwin,
    list: &mut [u8],
) -> HostCounted
    ensures { (result ≡ cond (is_twin left && is_twin right) (host_counted (compared (machine_from left) left_mem.now (machine_from right) right_mem.now list.old)) unnamed_count) × (list.new ≡ cond (is_twin left && is_twin right) (list_after (machine_from left) left_mem.now (machine_from right) right_mem.now list.old) list.old) }
{
    host_compare::doorhawser_compare(left_mem, left, right_mem, right, list)
}
