// The twin as a host in another language has it: structs of numbers laid out as C's, and how each is made of the twin's own.
// `include/doorhawser.h` declares the same structs: the twin's own have no layout that C could know. Numbers that name nothing are refused
// before anything else is judged. In the structs an array stands beside its count, and a number beside the twin: C has no slice, no Option
// and no Result.
#![tactic(auto)]

ghost use Rattle.std.specs.Prelude.{◌≡◌};
ghost use Rattle.machine.specs.Record.{wait_of};
ghost use Rattle.host.specs.Numbers.{flags_of, interrupt_type_of, is_twin, is_settings, is_named, is_interrupt};
ghost use Rattle.host.specs.Structs.{range_from, settings_from, machine_from, twin_from, host_twin, host_write, no_writes, host_outcome, keeping, unnamed};

use calls::{InterruptType, Report};
use journal::{Outcome, Twin};
use machine::{Machine, Range, Settings, Wait};
use memory::Write;
use registers::{CCBits, Flags, Set};

// The answer where a host's numbers name no wait state, mark, flag setting or interrupt, or a spare field is not 0. It is no number of a
// call on a twin.
const UNNAMED: u64 = 64;

// A range of the profile: first to last, both included; empty where first is above last.
#[repr(C)]
#[derive(Clone, Copy)]
pub struct HostRange {
    pub first: u16,
    pub last: u16,
}

// `flags` is 0 as bought, 1 by the manual; `spare` is 0. Outside the eight ranges nothing may be stored.
#[repr(C)]
#[derive(Clone, Copy)]
pub struct HostSettings {
    pub ram_top: u16,
    pub flags: u8,
    pub spare: u8,
    pub profile: [HostRange; 8],
}

// A machine, how many records its journal holds and how many bytes they use: 48 bytes, no gap, the registers in the order of `Set`. `wait`
// is 0 running, 1 CWAI, 2 SYNC; `armed` is 1 once S is loaded, else 0.
#[repr(C)]
#[derive(Clone, Copy)]
pub struct HostTwin {
    pub cycles: u64,
    pub instructions: u64,
    pub records: usize,
    pub bytes: usize,
    pub x: u16,
    pub y: u16,
    pub u: u16,
    pub s: u16,
    pub pc: u16,
    pub a: u8,
    pub b: u8,
    pub dp: u8,
    pub cc: u8,
    pub wait: u8,
    pub armed: u8,
}

// A device write.
#[repr(C)]
#[derive(Clone, Copy)]
pub struct HostWrite {
    pub at: u16,
    pub byte: u8,
    pub system: bool,
}

// What a call returns: the twin after it, the device writes that it reports, of which the first `count` are, and its number.
// `reads` and `writes` are the bytes of memory that the call read and wrote.
#[repr(C)]
#[derive(Clone, Copy)]
pub struct HostOutcome {
    pub twin: HostTwin,
    pub devices: [HostWrite; 12],
    pub count: usize,
    pub reads: u64,
    pub writes: u64,
    pub answer: u64,
}

// C gives the kinds as numbers, and what they name is part of its interface. One above the last is taken as the last: `is_named` and
// `is_interrupt` have refused it before, so that no conversion below can fail.
fn flags_of(flags: u8) -> Flags
    ensures { result ≡ flags_of flags }
{
    match flags {
        0 => Flags::Bought,
        _ => Flags::Manual,
    }
}

fn wait_of(n: u8) -> Wait
    ensures { result ≡ wait_of n }
{
    match n {
        0 => Wait::Running,
        1 => Wait::Cwai,
        _ => Wait::Sync,
    }
}

pub fn interrupt_type_of(which: u8) -> InterruptType
    ensures { result ≡ interrupt_type_of which }
{
    match which {
        0 => InterruptType::Irq,
        1 => InterruptType::Firq,
        _ => InterruptType::Nmi,
    }
}

// Wait state and mark are named.
pub fn is_twin(t: HostTwin) -> bool
    ensures { result ≡ is_twin t }
{
    (t.wait < 3) & (t.armed < 2)
}

// The flag setting is named, and the spare field is 0.
fn is_settings(s: HostSettings) -> bool
    ensures { result ≡ is_settings s }
{
    (s.flags < 2) & (s.spare == 0)
}

// What a step or a reset is given.
pub fn is_named(t: HostTwin, s: HostSettings) -> bool
    ensures { result ≡ is_named t s }
{
    is_twin(t) & is_settings(s)
}

// What an interrupt is given.
pub fn is_interrupt(t: HostTwin, s: HostSettings, which: u8) -> bool
    ensures { result ≡ is_interrupt t s which }
{
    is_named(t, s) & (which < 3)
}

impl From<HostRange> for Range {
    ghost from_gives = { λ g r. r ≡ range_from g };

    fn from(g: HostRange) -> Range {
        Range {
            first: g.first,
            last: g.last,
        }
    }
}

impl From<HostSettings> for Settings {
    ghost from_gives = { λ s r. r ≡ settings_from s };

    fn from(s: HostSettings) -> Settings {
        Settings::fenced(
            s.ram_top,
            flags_of(s.flags),
            s.profile.map(|g| Range::from(g)),
        )
    }
}

impl From<HostTwin> for Machine {
    ghost from_gives = { λ t m. m ≡ machine_from t };

    fn from(t: HostTwin) -> Machine {
        Machine {
            cycles: t.cycles,
            instructions: t.instructions,
            regs: Set {
                x: t.x,
                y: t.y,
                u: t.u,
                s: t.s,
                pc: t.pc,
                a: t.a,
                b: t.b,
                dp: t.dp,
                cc: CCBits { reg: t.cc },
            },
            wait: wait_of(t.wait),
            armed: t.armed == 1,
        }
    }
}

impl From<HostTwin> for Twin {
    ghost from_gives = { λ t r. r ≡ twin_from t };

    fn from(t: HostTwin) -> Twin {
        Twin {
            machine: Machine::from(t),
            records: t.records,
            bytes: t.bytes,
        }
    }
}

impl From<Twin> for HostTwin {
    ghost from_gives = { λ t r. r ≡ host_twin t };

    fn from(t: Twin) -> HostTwin {
        let machine = t.machine;
        let regs = machine.regs;
        HostTwin {
            cycles: machine.cycles,
            instructions: machine.instructions,
            records: t.records,
            bytes: t.bytes,
            x: regs.x,
            y: regs.y,
            u: regs.u,
            s: regs.s,
            pc: regs.pc,
            a: regs.a,
            b: regs.b,
            dp: regs.dp,
            cc: regs.cc.reg,
            wait: machine::wait_byte(machine.wait),
            armed: machine::mark_byte(machine.armed),
        }
    }
}

impl From<Write> for HostWrite {
    ghost from_gives = { λ w r. r ≡ host_write w };

    fn from(w: Write) -> HostWrite {
        HostWrite {
            at: w.at,
            byte: w.byte,
            system: w.system,
        }
    }
}

impl From<Outcome> for HostOutcome {
    ghost from_gives = { λ o r. r ≡ host_outcome o };

    fn from(o: Outcome) -> HostOutcome {
        HostOutcome {
            twin: HostTwin::from(o.twin),
            devices: o.devices.list.map(|w| HostWrite::from(w)),
            count: o.devices.count,
            reads: o.reads as u64,
            writes: o.writes as u64,
            answer: answers::number(&o.answer) as u64,
        }
    }
}

// A call that is not recorded keeps both counts of the journal. It takes them beside the report, and so is no `From`.
pub fn report_of(t: HostTwin, report: Report) -> HostOutcome
    ensures { result ≡ host_outcome (keeping t report) }
{
    HostOutcome::from(Outcome {
        devices: report.devices,
        twin: Twin {
            machine: report.machine,
            records: t.records,
            bytes: t.bytes,
        },
        reads: report.reads,
        writes: report.writes,
        answer: report.answer,
    })
}

fn no_writes() -> [HostWrite; 12]
    ensures { result ≡ no_writes }
{
    [HostWrite {
        at: 0,
        byte: 0,
        system: false,
    }; 12]
}

// The twin comes back as it was given.
pub fn unnamed(t: HostTwin) -> HostOutcome
    ensures { result ≡ unnamed t }
{
    HostOutcome {
        twin: t,
        devices: no_writes(),
        count: 0,
        reads: 0,
        writes: 0,
        answer: UNNAMED,
    }
}
