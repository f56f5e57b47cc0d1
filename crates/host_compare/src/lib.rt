// For hosts in C and Rust: dumps, and what differs between two twins.
// The structs are C's: an answer's number stands beside a count or a twin, and a count alone tells what a lent buffer got.
#![tactic(auto)]

ghost use Rattle.std.specs.Prelude.{cond, ◌&&◌, ◌≡◌};
ghost use Rattle.difference.specs.Compare.{compared, list_after};
ghost use Rattle.dump.specs.Dumps.{dumped, output_dumped, undumped, memory_undumped};
ghost use Rattle.host.specs.Numbers.{is_twin};
ghost use Rattle.host.specs.Structs.{machine_from};
ghost use Rattle.host_compare.specs.Results.{unnamed_count, host_counted, undumped_as, host_undumped};

use answers::Refusal;
use host::HostTwin;
use journal::Twin;
use machine::Machine;

// How many bytes, or entries, are written.
#[repr(C)]
#[derive(Clone, Copy)]
pub struct HostCounted {
    pub count: usize,
    pub answer: u64,
}

#[repr(C)]
#[derive(Clone, Copy)]
pub struct HostUndumped {
    pub twin: HostTwin,
    pub answer: u64,
}

// Where a twin's numbers name nothing.
fn unnamed_count(twin: HostTwin) -> HostCounted
    ensures { result ≡ unnamed_count }
{
    HostCounted {
        count: 0,
        answer: host::unnamed(twin).answer,
    }
}

fn counted(answer: Result<usize, Refusal>) -> HostCounted
    ensures { result ≡ host_counted answer }
{
    match answer {
        Ok(count) => HostCounted { count, answer: 0 },
        Err(refusal) => HostCounted {
            count: 0,
            answer: refusal.number() as u64,
        },
    }
}

// A dump has no journal: no record is held, and no byte is in use.
fn undumped_as(machine: Machine, answer: u64) -> HostUndumped
    ensures { result ≡ undumped_as machine answer }
{
    let twin = HostTwin::from(Twin {
        machine,
        records: 0,
        bytes: 0,
    });
    HostUndumped { twin, answer }
}

// A twin's machine with its memory as a dump, at the front of `out`.
#[unsafe(no_mangle)]
pub extern "C" fn doorhawser_dump(mem: &[u8], twin: HostTwin, out: &mut [u8]) -> HostCounted
    ensures { (result ≡ cond (is_twin twin) (host_counted (dumped mem.now out.old)) unnamed_count) × (out.new ≡ cond (is_twin twin) (output_dumped (machine_from twin) mem.now out.old) out.old) }
{
    if host::is_twin(twin) {
        return counted(dump::write(Machine::from(twin), mem, out));
    }
    unnamed_count(twin)
}

// A dump's memory is laid in `mem`, and its machine handed back with no record; where it is refused, a fresh machine.
#[unsafe(no_mangle)]
pub extern "C" fn doorhawser_undump(mem: &mut [u8], dump: &[u8]) -> HostUndumped
    ensures { (result ≡ host_undumped (undumped dump.now mem.old)) × (mem.new ≡ memory_undumped dump.now mem.old) }
{
    match dump::read(dump, mem) {
        Ok(machine) => undumped_as(machine, 0),
        Err(refusal) => undumped_as(Machine::fresh(), refusal.number() as u64),
    }
}

// What differs between two twins with their memories, as entries at the front of `list`.
#[unsafe(no_mangle)]
pub extern "C" fn doorhawser_compare(
    left_mem: &[u8],
    left: HostTwin,
    right_mem: &[u8],
    right: HostTwin,
    list: &mut [u8],
) -> HostCounted
    ensures { (result ≡ cond (is_twin left && is_twin right) (host_counted (compared (machine_from left) left_mem.now (machine_from right) right_mem.now list.old)) unnamed_count) × (list.new ≡ cond (is_twin left && is_twin right) (list_after (machine_from left) left_mem.now (machine_from right) right_mem.now list.old) list.old) }
{
    if host::is_twin(left) & host::is_twin(right) {
        let compared = difference::compare(
            Machine::from(left),
            left_mem,
            Machine::from(right),
            right_mem,
            list,
        );
        return counted(compared);
    }
    unnamed_count(left)
}
