// What each operation does to the registers, by subject: the manual's instruction pages.
// The registers come with PC at the next instruction and the index register changed; `ea` is the effective address.
// These come as parameters of their own: most functions read some of memory, registers and `ea`, and the signature says which.
#![tactic(auto)]

mod branches;
mod codes;
mod eight_bit;
mod inherent;
mod transfers;
mod words;

ghost use Rattle.std.specs.Prelude.{◌≡◌};
ghost use Rattle.operations.specs.Change.{changed_of};

use answers::Refusal;
pub use branches::{condition, jump};
pub use codes::{and_codes, or_codes, with_codes};
pub use eight_bit::{accumulator, on_memory, one_write, store8, test, unary, with_accumulator};
use opcodes::RegisterOp;
use registers::{Flags, Set};
pub use transfers::{exchange, transfer, transfer_name, transferable};
pub use words::{store16, test16};

pub fn change(op: RegisterOp, flags: Flags, mem: &[u8], regs: Set, ea: u16) -> Result<Set, Refusal>
    ensures { result ≡ changed_of op flags mem.now regs ea }
{
    match op {
        RegisterOp::Alu(alu, acc) => {
            let m = memory::read_u8(mem, ea);
            Ok(eight_bit::with_operand(flags, alu, acc, regs, m))
        }
        RegisterOp::OnAcc(unary, acc) => { Ok(eight_bit::on_accumulator(flags, unary, acc, regs)) }
        RegisterOp::TestAcc(acc) => Ok(eight_bit::test(regs, eight_bit::accumulator(regs, acc))),
        RegisterOp::TestMemory => Ok(eight_bit::test(regs, memory::read_u8(mem, ea))),
        RegisterOp::Addd => Ok(words::add_d(mem, regs, ea)),
        RegisterOp::Subd => Ok(words::subtract_d(mem, regs, ea)),
        RegisterOp::Load16(word) => Ok(words::load16(mem, regs, word, ea)),
        RegisterOp::Cmp16(word) => Ok(words::compare16(mem, regs, word, ea)),
        RegisterOp::Lea(index) => Ok(words::load_address(regs, index, ea)),
        RegisterOp::Branch(cond) => Ok(branches::branch(regs, cond, ea)),
        RegisterOp::Jmp => Ok(jump(regs, ea)),
        RegisterOp::Nop => Ok(regs),
        RegisterOp::Daa => Ok(inherent::decimal_adjust(regs)),
        RegisterOp::Sex => Ok(inherent::sign_extend(regs)),
        RegisterOp::Mul => Ok(inherent::multiply(regs)),
        RegisterOp::Abx => Ok(inherent::add_b_to_x(regs)),
        RegisterOp::Andcc => Ok(and_codes(regs, memory::read_u8(mem, ea))),
        RegisterOp::Orcc => Ok(or_codes(regs, memory::read_u8(mem, ea))),
        RegisterOp::Exg => exchange(regs, memory::read_u8(mem, ea)),
        RegisterOp::Tfr => transfer(regs, memory::read_u8(mem, ea)),
    }
}
