// Interrupts and reset, 46 and 47.
use super::case::{Case, Failure, Reply, sized};
use super::digest::short_digest;
use super::frames::{Left, View, carried_out, stacking, unstack};
use super::machine_memory::{Memory, put_word, put_word_back};
use super::operands::{numbered, register, seeded, truth};
use answers::Refusal;
use calls::InterruptType;
use machine::{Effect, Machine, Settings, Wait};
use opcodes::{MemoryOp, Op, Software};
use registers::{CCBit, Flags, Set};
use vectors::Vector;

// Types are counted as in the Rust.
fn vector_of(kind: u16) -> Result<Vector, Failure> {
    numbered(
        &[
            Vector::Reset,
            Vector::Nmi,
            Vector::Firq,
            Vector::Irq,
            Vector::Swi,
            Vector::Swi2,
            Vector::Swi3,
        ],
        kind,
    )
}

fn settings(ram_top: u16) -> Settings {
    Settings::new(ram_top, Flags::Bought)
}

// The word at the type's vector stands there for as long as the case takes.
pub fn interrupt(case: Case, mem: &mut Memory) -> Reply {
    let [kind, s, seed, to] = case.words;
    let view = View::try_from(kind % 16)?;
    let vector = vector_of(kind / 16 % 16)?;
    let start = Start {
        regs: stacking(seed, s),
        in_cwai: truth(kind / 256)?,
        ram_top: seed,
    };
    let at = vector.address();
    put_word(mem, at, to);
    let shown = start.served(mem, vector).map(|left| left.shown(mem, view));
    unstack(mem, s);
    put_word_back(mem, at);
    Ok(shown?)
}

// What an interrupt starts from.
#[derive(Clone, Copy)]
struct Start {
    regs: Set,
    in_cwai: bool,
    ram_top: u16,
}

impl Start {
    fn served(self, mem: &mut Memory, vector: Vector) -> Result<Left, Refusal> {
        match vector {
            Vector::Nmi => self.hardware(mem, InterruptType::Nmi),
            Vector::Firq => self.hardware(mem, InterruptType::Firq),
            Vector::Irq => self.hardware(mem, InterruptType::Irq),
            _ => {
                let effect = self.software(mem, vector);
                carried_out(mem, self.ram_top, effect)
            }
        }
    }

    fn hardware(self, mem: &mut Memory, which: InterruptType) -> Result<Left, Refusal> {
        let before = machine(unmasked(self.regs, which), self.in_cwai);
        let stepped = calls::interrupt(mem, before, settings(self.ram_top), which);
        stepped.answer?;
        Ok(Left {
            regs: stepped.machine.regs,
            wait: stepped.machine.wait,
        })
    }

    // In CWAI no instruction is stepped: what the Rust does there with these types is the vector alone. Reset's type has no call of ours
    // that stacks: it takes its vector after the frame that the Rust gives it.
    fn software(self, mem: &Memory, vector: Vector) -> Effect {
        match vector {
            _ if self.in_cwai => self.vectored(mem, Effect::changes(self.regs), vector),
            Vector::Swi => self.executed(mem, Software::Swi),
            Vector::Swi2 => self.executed(mem, Software::Swi2),
            Vector::Swi3 => self.executed(mem, Software::Swi3),
            _ => self.vectored(mem, stack::frame(self.regs, true), vector),
        }
    }

    fn vectored(self, mem: &Memory, stacked: Effect, vector: Vector) -> Effect {
        vectors::take_vector(mem, settings(self.ram_top), self.regs, stacked, vector)
    }

    fn executed(self, mem: &Memory, which: Software) -> Effect {
        let op = Op::Memory(MemoryOp::Swi(which));
        evaluate::evaluate(op, settings(self.ram_top), mem, self.regs, 0)
    }
}

// S is loaded: the Rust has no mark, and serves every NMI.
fn machine(regs: Set, in_cwai: bool) -> Machine {
    let wait = if in_cwai { Wait::Cwai } else { Wait::Running };
    Machine::fresh().with_registers(regs, wait).marked(true)
}

// The Rust's callers look at the masks; here the call does, and finds none set.
fn unmasked(regs: Set, which: InterruptType) -> Set {
    let cc = match which {
        InterruptType::Irq => regs.cc.set(CCBit::I, false),
        InterruptType::Firq => regs.cc.set(CCBit::F, false),
        InterruptType::Nmi => regs.cc,
    };
    Set { cc, ..regs }
}

pub fn reset(case: Case, mem: &mut Memory) -> Reply {
    let [name, to, seed, 0] = case.words else {
        return Err(Failure::BadCase);
    };
    let name = register(name)?;
    let at = Vector::Reset.address();
    put_word(mem, at, to);
    let stepped = calls::reset(mem, machine(seeded(seed), false), settings(seed));
    let regs = stepped.machine.regs;
    let shown = stepped
        .answer
        .map(|()| sized(regs.get_register(name), short_digest(mem)));
    put_word_back(mem, at);
    Ok(shown?)
}
