// The letters of the operations that have a part of their own, each text whole.
ghost use Rattle.std.specs.Prelude.{◌≡◌};
ghost use Rattle.registers.specs.ConditionCodes.{ascii};
ghost use Rattle.mnemonics.specs.Mnemonics.{stem_with, branching, acc_letter, word_letter, alu_text, unary_text, cond_text, software_text};

use opcodes::{Acc, Alu, Cond, Software, Unary};

// A stem, and the letter of an accumulator.
// Macros, since `concat!` takes literals alone: text put together at run time needs a buffer and a length, or a heap.
macro_rules! with_acc {
    ($stem:literal, $acc:expr) => {
        match $acc {
            Acc::A => concat!($stem, "A"),
            Acc::B => concat!($stem, "B"),
        }
    };
}

// A stem, and the letter of a register of 16 bits.
macro_rules! with_word {
    ($stem:literal, $word:expr) => {
        match $word {
            Word::D => concat!($stem, "D"),
            Word::X => concat!($stem, "X"),
            Word::Y => concat!($stem, "Y"),
            Word::U => concat!($stem, "U"),
            Word::S => concat!($stem, "S"),
        }
    };
}

// LB and a condition, or B and the condition.
macro_rules! branch {
    ($to:literal, $long:expr) => {
        if $long {
            concat!("LB", $to)
        } else {
            concat!("B", $to)
        }
    };
}

pub(crate) use branch;
pub(crate) use with_acc;
pub(crate) use with_word;

pub fn of_alu(alu: Alu, acc: Acc) -> &'static str
    ensures { result.now ≡ stem_with (alu_text alu) (acc_letter acc) }
{
    match alu {
        Alu::Add => with_acc!("ADD", acc),
        Alu::Adc => with_acc!("ADC", acc),
        Alu::Sub => with_acc!("SUB", acc),
        Alu::Sbc => with_acc!("SBC", acc),
        Alu::Cmp => with_acc!("CMP", acc),
        Alu::And => with_acc!("AND", acc),
        Alu::Bit => with_acc!("BIT", acc),
        Alu::Or => with_acc!("OR", acc),
        Alu::Eor => with_acc!("EOR", acc),
        Alu::Ld => with_acc!("LD", acc),
    }
}

pub fn on_acc(unary: Unary, acc: Acc) -> &'static str
    ensures { result.now ≡ stem_with (unary_text unary) (acc_letter acc) }
{
    match unary {
        Unary::Neg => with_acc!("NEG", acc),
        Unary::Com => with_acc!("COM", acc),
        Unary::Lsr => with_acc!("LSR", acc),
        Unary::Ror => with_acc!("ROR", acc),
        Unary::Asr => with_acc!("ASR", acc),
        Unary::Asl => with_acc!("ASL", acc),
        Unary::Rol => with_acc!("ROL", acc),
        Unary::Dec => with_acc!("DEC", acc),
        Unary::Inc => with_acc!("INC", acc),
        Unary::Clr => with_acc!("CLR", acc),
    }
}

// The stems of `on_acc` once more: a text cannot be cut out of one with its accumulator and stay as plain.
pub fn on_memory(unary: Unary) -> &'static str
    ensures { result.now ≡ ascii (unary_text unary) }
{
    match unary {
        Unary::Neg => "NEG",
        Unary::Com => "COM",
        Unary::Lsr => "LSR",
        Unary::Ror => "ROR",
        Unary::Asr => "ASR",
        Unary::Asl => "ASL",
        Unary::Rol => "ROL",
        Unary::Dec => "DEC",
        Unary::Inc => "INC",
        Unary::Clr => "CLR",
    }
}

pub fn of_branch(cond: Cond, long: bool) -> &'static str
    ensures { result.now ≡ branching long (ascii (cond_text cond)) }
{
    match cond {
        Cond::Ra => branch!("RA", long),
        Cond::Rn => branch!("RN", long),
        Cond::Hi => branch!("HI", long),
        Cond::Ls => branch!("LS", long),
        Cond::Cc => branch!("CC", long),
        Cond::Cs => branch!("CS", long),
        Cond::Ne => branch!("NE", long),
        Cond::Eq => branch!("EQ", long),
        Cond::Vc => branch!("VC", long),
        Cond::Vs => branch!("VS", long),
        Cond::Pl => branch!("PL", long),
        Cond::Mi => branch!("MI", long),
        Cond::Ge => branch!("GE", long),
        Cond::Lt => branch!("LT", long),
        Cond::Gt => branch!("GT", long),
        Cond::Le => branch!("LE", long),
    }
}

pub fn of_software(software: Software) -> &'static str
    ensures { result.now ≡ ascii (software_text software) }
{
    match software {
        Software::Swi => "SWI",
        Software::Swi2 => "SWI2",
        Software::Swi3 => "SWI3",
    }
}
