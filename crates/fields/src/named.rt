// Rows 1 and 3: instructions that share no field with their neighbours and are listed by name, and LEA, PSH and PUL, which do.
ghost use Rattle.std.specs.Prelude.{◌≡◌, ◌≤◌};
ghost use Rattle.opcodes.specs.declared.Page.TheVariants.{Plain};
ghost use Rattle.fields.specs.Entries.{entry_at};
ghost use Rattle.fields.specs.Named.{row_one, address_load, stack_transfer, by_name, row_three, software_interrupt};

use super::entries::entry_at;
use opcodes::{Cond, Entry, MemoryOp, Mode, Op, Page, RegisterOp, Software};
use registers::{Index, Stack};

// Two helpers: one for both would have each line below say `Op::Registers(..)` or `Op::Memory(..)`.
fn on_registers(op: RegisterOp, mode: Mode, cycles: u8) -> Option<Entry>
    requires { cycles ≤ 20 }
    ensures { result ≡ entry_at Plain (Op.Registers op) mode cycles }
{
    entry_at(Page::Plain, Op::Registers(op), mode, cycles)
}

fn on_memory(op: MemoryOp, mode: Mode, cycles: u8) -> Option<Entry>
    requires { cycles ≤ 20 }
    ensures { result ≡ entry_at Plain (Op.Memory op) mode cycles }
{
    entry_at(Page::Plain, Op::Memory(op), mode, cycles)
}

// NOP, SYNC, LBRA, LBSR, DAA, ORCC, ANDCC, SEX, EXG, TFR. 10 and 11 are prefixes and no instructions.
pub fn row_1(column: u8) -> Option<Entry>
    ensures { result ≡ row_one column }
{
    match column {
        0x2 => on_registers(RegisterOp::Nop, Mode::Inherent, 2),
        0x3 => on_memory(MemoryOp::Sync, Mode::Inherent, 4),
        0x6 => on_registers(RegisterOp::Branch(Cond::Ra), Mode::Relative16, 5),
        0x7 => on_memory(MemoryOp::Bsr, Mode::Relative16, 9),
        0x9 => on_registers(RegisterOp::Daa, Mode::Inherent, 2),
        0xA => on_registers(RegisterOp::Orcc, Mode::Immediate8, 3),
        0xC => on_registers(RegisterOp::Andcc, Mode::Immediate8, 3),
        0xD => on_registers(RegisterOp::Sex, Mode::Inherent, 2),
        0xE => on_registers(RegisterOp::Exg, Mode::Immediate8, 8),
        0xF => on_registers(RegisterOp::Tfr, Mode::Immediate8, 6),
        _ => None,
    }
}

// LEA, of which bits 1 and 0 name the register: X, Y, S, U.
fn address_load(column: u8) -> Option<Entry>
    ensures { result ≡ address_load column }
{
    let index = match column % 4 {
        0 => Index::X,
        1 => Index::Y,
        2 => Index::S,
        _ => Index::U,
    };
    on_registers(RegisterOp::Lea(index), Mode::Indexed, 2)
}

// Bit 1 chooses the stack, S or U. Bit 0: push or pull.
fn stack_transfer(column: u8) -> Option<Entry>
    ensures { result ≡ stack_transfer column }
{
    let op = match column % 4 {
        0 => MemoryOp::Push(Stack::S),
        1 => MemoryOp::Pull(Stack::S),
        2 => MemoryOp::Push(Stack::U),
        _ => MemoryOp::Pull(Stack::U),
    };
    on_memory(op, Mode::Immediate8, 5)
}

// RTS, ABX, RTI, CWAI, MUL, SWI.
fn by_name(column: u8) -> Option<Entry>
    ensures { result ≡ by_name column }
{
    match column {
        0x9 => on_memory(MemoryOp::Rts, Mode::Inherent, 5),
        0xA => on_registers(RegisterOp::Abx, Mode::Inherent, 3),
        0xB => on_memory(MemoryOp::Rti, Mode::Inherent, 6),
        0xC => on_memory(MemoryOp::Cwai, Mode::Immediate8, 20),
        0xD => on_registers(RegisterOp::Mul, Mode::Inherent, 11),
        0xF => on_memory(MemoryOp::Swi(Software::Swi), Mode::Inherent, 19),
        _ => None,
    }
}

// Bits 3 and 2 tell LEA and the stack transfers from the rest.
pub fn row_3(column: u8) -> Option<Entry>
    ensures { result ≡ row_three column }
{
    match column >> 2 {
        0 => address_load(column),
        1 => stack_transfer(column),
        _ => by_name(column),
    }
}

// SWI2 and SWI3 stand where SWI stands on the plain page.
pub fn software(page: Page, column: u8) -> Option<Entry>
    ensures { result ≡ software_interrupt page column }
{
    let software = match page {
        Page::Plain => return None,
        Page::Ten => Software::Swi2,
        Page::Eleven => Software::Swi3,
    };
    if column == 0xF {
        entry_at(
            page,
            Op::Memory(MemoryOp::Swi(software)),
            Mode::Inherent,
            19,
        )
    } else {
        None
    }
}
