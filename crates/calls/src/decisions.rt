// What an instruction does, told by a small value: a list of twelve writes is made for the few that need one (docs/PERFORMANCE.md).
ghost use Rattle.std.specs.Prelude.{◌≡◌, ◌+◌, ◌<◌, ◌≤◌, nat_lt, Ok};
ghost use Rattle.evaluate.specs.Arming.{arms};
ghost use Rattle.evaluate.specs.Evaluate.{effect_of, evaluate_of, memory_of};
ghost use Rattle.operations.specs.Change.{changed_of};
ghost use Rattle.calls.specs.declared.decisions.Kind.TheVariants.{Byte, Change, Word as Wide};
ghost use Rattle.memory.specs.Map.{byte_at};
ghost use Rattle.bus.specs.Reads.{registers_take, memory_takes, operand_taken};
ghost use Rattle.bus.specs.Sums.{operand_count, memory_count, fetched_count};
ghost use Rattle.cycles.specs.Cycles.{operation_extra};
ghost use Rattle.calls.specs.Steps.{of_decoded, decoded_to, planned};
ghost use Rattle.opcodes.specs.declared.MemoryOp.TheVariants.{OnMemory, Store8, Store16, Bsr};
ghost use Rattle.calls.specs.Decisions.{told, refusal_told, push_told, left_over, billed, effect_told, plan_told, is_below, is_word_below, is_plain, Decides};

use answers::Refusal;
use bus::{memory_count, memory_takes, operand_count, pointer_count, registers_take};
use cycles::{cost, memory_extra, operand_extra, registers_extra};
use decode::Instruction;
use machine::{Machine, Range, Settings};
use opcodes::{Acc, Entry, MemoryOp, Mode, Op, RegisterOp, Unary};
use registers::{Set, Stack, Word};

// Refused by `refusal`; `regs` alone change; a byte or a word `value` is stored at `at`; the registers of `mask` are pushed on `own`, where
// there is room; or none of these, and `op` at `at` is left to be evaluated.
#[derive(Clone, Copy)]
pub enum Kind {
    Refused,
    Change,
    Byte,
    Word,
    Push,
    Rest,
}

// Fields that its kind does not name say nothing. There is no enum with values in its place: the compiler would pack and unpack them.
// A refusal is one of the kinds, so that an arm hands it on below, and no `?`.
#[derive(Clone, Copy)]
pub struct Decision {
    pub regs: Set,
    pub cycles: u16,
    pub at: u16,
    pub value: u16,
    pub mask: u8,
    pub reads: u8,
    pub arms: bool,
    pub own: Stack,
    pub refusal: Refusal,
    pub op: MemoryOp,
    pub kind: Kind,
}

// A change of registers, from which the others are made.
fn tell_change(regs: Set) -> Decision
    ensures { result ≡ told Change regs 0 0 }
{
    Decision {
        regs,
        cycles: 0,
        at: 0,
        value: 0,
        mask: 0,
        reads: 0,
        arms: false,
        own: Stack::S,
        refusal: Refusal::Opcode,
        op: MemoryOp::Sync,
        kind: Kind::Change,
    }
}

fn tell_byte(regs: Set, at: u16, byte: u8) -> Decision
    ensures { (result ≡ told Byte regs at byte) × (byte < 256) }
{
    Decision {
        kind: Kind::Byte,
        at,
        value: byte as u16,
        ..tell_change(regs)
    }
}

fn tell_word(regs: Set, at: u16, word: u16) -> Decision
    ensures { result ≡ told Wide regs at word }
{
    Decision {
        kind: Kind::Word,
        at,
        value: word,
        ..tell_change(regs)
    }
}

fn refuse(refusal: Refusal, regs: Set) -> Decision
    ensures { result ≡ refusal_told refusal regs }
{
    Decision {
        kind: Kind::Refused,
        refusal,
        ..tell_change(regs)
    }
}

fn tell_push(regs: Set, own: Stack, mask: u8) -> Decision
    ensures { result ≡ push_told regs own mask }
{
    Decision {
        kind: Kind::Push,
        own,
        mask,
        ..tell_change(regs)
    }
}

fn leave(op: MemoryOp, regs: Set, ea: u16) -> Decision
    ensures { result ≡ left_over op regs ea }
{
    Decision {
        kind: Kind::Rest,
        op,
        at: ea,
        ..tell_change(regs)
    }
}

// A byte is written below the devices, at or below ram_top, and in the range.
fn is_below(at: u16, ram_top: u16, range: Range) -> bool
    ensures { result ≡ is_below ram_top range at }
{
    (at < 0xFF00) & (at <= ram_top) & (range.first <= at) & (at <= range.last)
}

// Both bytes of a word are: four comparisons. `is_below` of both would be eight, and the second address could wrap.
fn is_word_below(at: u16, ram_top: u16, range: Range) -> bool
    ensures { result ≡ is_word_below ram_top range at }
{
    (at < 0xFEFF) & (at < ram_top) & (range.first <= at) & (at < range.last)
}

// A push from top has room in the range for every register.
fn has_room(top: u16, range: Range) -> bool
    ensures { result ≡ nat_lt (range.first + 11) top }
{
    range.first as u32 + 11 < top as u32
}

// Whether nothing but the stores is to be done: all that is told as stored lies below the devices, at or below ram_top and in the profile's
// first range, and a push has room there for every register. What lies in another range goes by the list of writes.
pub fn is_plain(decision: Decision, settings: Settings) -> bool
    ensures { result ≡ is_plain settings decision }
{
    let ram_top = settings.ram_top;
    let range = settings.profile[0];
    match decision.kind {
        Kind::Refused | Kind::Change => true,
        Kind::Byte => is_below(decision.at, ram_top, range),
        Kind::Word => is_word_below(decision.at, ram_top, range),
        Kind::Push => {
            let top = decision.regs.word(decision.own.word());
            has_room(top, range) & is_below(top, ram_top, range)
        }
        Kind::Rest => false,
    }
}

// A byte and a word are stored by two functions: they take registers of two enums, and set flags by two tests.
fn store8(settings: Settings, mem: &[u8], regs: Set, acc: Acc, ea: u16) -> Decision
    ensures { effect_told settings mem.now result ≡ memory_of (Store8 acc) settings mem.now regs ea }
{
    let value = operations::accumulator(regs, acc);
    tell_byte(operations::test(regs, value), ea, value)
}

fn store16(settings: Settings, mem: &[u8], regs: Set, word: Word, ea: u16) -> Decision
    ensures { effect_told settings mem.now result ≡ memory_of (Store16 word) settings mem.now regs ea }
{
    let value = regs.word(word);
    tell_word(operations::test16(regs, value), ea, value)
}

fn on_memory(settings: Settings, mem: &[u8], regs: Set, op: Unary, ea: u16) -> Decision
    ensures { effect_told settings mem.now result ≡ memory_of (OnMemory op) settings mem.now regs ea }
{
    let out = operations::unary(settings.flags, op, regs.cc, memory::read_u8(mem, ea));
    tell_byte(operations::with_codes(regs, out.cc), ea, out.value)
}

// BSR and JSR: PC is pushed as a word.
fn call(settings: Settings, mem: &[u8], regs: Set, ea: u16) -> Decision
    ensures { effect_told settings mem.now result ≡ memory_of Bsr settings mem.now regs ea }
{
    let Some(at) = regs.s.checked_sub(2) else {
        return refuse(Refusal::StackTooSmall, regs);
    };
    tell_word(
        operations::jump(regs.with_word(Word::S, at), ea),
        at,
        regs.pc,
    )
}

// The operations that may write memory, use a stack or wait.
fn decide_memory(op: MemoryOp, settings: Settings, mem: &[u8], regs: Set, ea: u16) -> Decision
    ensures { effect_told settings mem.now result ≡ memory_of op settings mem.now regs ea }
{
    match op {
        MemoryOp::Store8(acc) => store8(settings, mem, regs, acc, ea),
        MemoryOp::Store16(word) => store16(settings, mem, regs, word, ea),
        MemoryOp::OnMemory(unary) => on_memory(settings, mem, regs, unary, ea),
        MemoryOp::Bsr | MemoryOp::Jsr => call(settings, mem, regs, ea),
        MemoryOp::Rts => tell_change(stack::return_from_subroutine(mem, regs)),
        MemoryOp::Push(own) => tell_push(regs, own, memory::read_u8(mem, ea)),
        MemoryOp::Pull(own) => {
            let mask = memory::read_u8(mem, ea);
            tell_change(stack::pull_registers(mem, regs, own, mask))
        }
        _ => leave(op, regs, ea),
    }
}

impl Decision {
    // The whole value anew, not three fields of it: then the compiler keeps each field by itself.
    fn bill(self, cycles: u16, reads: u8, arms: bool) -> Decision
        ensures { result ≡ billed self cycles reads arms }
    {
        Decision {
            cycles,
            reads,
            arms,
            ..self
        }
    }
}

// The operations on registers.
fn decide_registers(op: RegisterOp, settings: Settings, mem: &[u8], regs: Set, ea: u16) -> Decision
    ensures { effect_told settings mem.now result ≡ effect_of regs (changed_of op settings.flags mem.now regs ea) }
{
    match operations::change(op, settings.flags, mem, regs, ea) {
        Ok(after) => tell_change(after),
        Err(refusal) => refuse(refusal, regs),
    }
}

// What an instruction reads: `program` are its own bytes and the pointer's, a sum for which a type would be no plainer than a clause. What
// an operation on memory reads has a term more, so that the two stay apart.
fn registers_reads(program: u8, mode: Mode, on: RegisterOp) -> u8
    requires { program ≤ 7 }
    ensures { result ≡ program + operand_count mode (registers_take on) }
{
    program + operand_count(mode, registers_take(on))
}

fn memory_reads(program: u8, mode: Mode, on: MemoryOp, mem: &[u8], regs: Set, ea: u16) -> u8
    requires { program ≤ 7 }
    ensures { result ≡ program + (operand_count mode (memory_takes on) + memory_count on mem.now regs ea) }
{
    let operand = operand_count(mode, memory_takes(on));
    program + (operand + memory_count(on, mem, regs, ea))
}

// The operation. `extra` is the operand's, and `program` the bytes read so far: both are known before the address is found. What it reads
// is counted last: counted before the operation it would be kept in memory meanwhile (docs/PERFORMANCE.md).
fn operate(
    mem: &[u8],
    settings: Settings,
    entry: Entry,
    extra: u8,
    program: u8,
    regs: Set,
    ea: u16,
) -> Decision
    requires { program ≤ 7 }
    ensures { Decides settings mem.now (entry.cycles + (extra + operation_extra entry.op entry.mode mem.now regs ea)) (program + (operand_count entry.mode (operand_taken entry.op) + fetched_count entry.op mem.now regs ea)) (arms entry.op (byte_at mem.now ea)) (evaluate_of entry.op settings mem.now regs ea) result }
{
    let mode = entry.mode;
    match entry.op {
        Op::Registers(on) => {
            let cycles = cost(entry.cycles, extra, registers_extra(on, mode, regs.cc));
            let arms = evaluate::registers_arm(on, mem, ea);
            let decision = decide_registers(on, settings, mem, regs, ea);
            let reads = registers_reads(program, mode, on);
            decision.bill(cycles, reads, arms)
        }
        Op::Memory(on) => {
            let cycles = cost(entry.cycles, extra, memory_extra(on, mem, regs, ea));
            let arms = evaluate::memory_arms(on, mem, ea);
            let decision = decide_memory(on, settings, mem, regs, ea);
            let reads = memory_reads(program, mode, on, mem, regs, ea);
            decision.bill(cycles, reads, arms)
        }
    }
}

// An instruction has at most five bytes. That says how far its end lies from PC of the machine: no type of one of the two can hold it.
fn execute(mem: &[u8], machine: Machine, settings: Settings, instruction: Instruction) -> Decision
    requires { (machine.regs.pc ≤ instruction.next) × (instruction.next ≤ machine.regs.pc + 5) }
    ensures { plan_told machine settings mem.now result ≡ planned mem.now machine settings (of_decoded mem.now machine.regs (Ok instruction)) }
{
    let Instruction {
        entry,
        operand,
        next,
    } = instruction;
    let extra = operand_extra(operand);
    let own = (next - machine.regs.pc as u32) as u8;
    let program = own + pointer_count(operand);
    match addressing::resolve(mem, machine.regs, operand, next) {
        Err(refusal) => refuse(refusal, machine.regs),
        Ok(found) => operate(mem, settings, entry, extra, program, found.regs, found.ea),
    }
}

// What the instruction at PC will do.
pub fn decide(mem: &[u8], machine: Machine, settings: Settings) -> Decision
    ensures { plan_told machine settings mem.now result ≡ planned mem.now machine settings (decoded_to mem.now machine.regs) }
{
    match decode::decode(mem, machine.regs.pc) {
        Err(refusal) => refuse(refusal, machine.regs),
        Ok(instruction) => execute(mem, machine, settings, instruction),
    }
}
