// System pushes and the frames of interrupts, 44 and 45, and how 45 and 46 show what is left afterwards.
use super::case::{Case, Failure, Reply, Words};
use super::digest::short_digest;
use super::machine_memory::{Memory, put_back, raw_word};
use super::operands::{numbered, register, seeded, truth};
use answers::Refusal;
use machine::{Effect, Wait};
use registers::{Name, Set, Stack, Word};

// Which three words of what is left are shown: PC, S and CC; those at S; those six bytes above it; and what stands for the rest.
#[derive(Clone, Copy)]
pub enum View {
    Codes,
    Near,
    Far,
    Rest,
}

impl TryFrom<u16> for View {
    type Error = Failure;

    fn try_from(w: u16) -> Result<Self, Failure> {
        numbered(&[View::Codes, View::Near, View::Far, View::Rest], w)
    }
}

// The registers of a seed, with another S.
pub fn stacking(seed: u16, s: u16) -> Set {
    seeded(seed).with_word(Word::S, s)
}

// The bits of a push's post-byte that name a register. A push on S has none for S: `push` puts its value into U.
fn mask(name: Name) -> u8 {
    match name {
        Name::A => 0x02,
        Name::B => 0x04,
        Name::D => 0x06,
        Name::X => 0x10,
        Name::Y => 0x20,
        Name::U | Name::S => 0x40,
        Name::PC => 0x80,
        Name::DP => 0x08,
        Name::CC => 0x01,
    }
}

fn with_s_in_u(regs: Set, name: Name) -> Set {
    match name {
        Name::S => regs.with_word(Word::U, regs.s),
        _ => regs,
    }
}

// The Rust's system_psh: a push of one register by System writes. The last word is unused.
pub fn push(case: Case, mem: &mut Memory) -> Reply {
    let [name, s, seed, 0] = case.words else {
        return Err(Failure::BadCase);
    };
    let name = register(name)?;
    let regs = with_s_in_u(stacking(seed, s), name);
    let effect = stack::push(regs, Stack::S, mask(name), true);
    memory::store_all(mem, seed, effect.writes);
    let at = effect.regs.s;
    let shown = effect
        .answer
        .map(|()| [at, raw_word(mem, at, 0), short_digest(mem)]);
    unstack(mem, s);
    Ok(shown?)
}

// A frame and no more.
pub fn frame(case: Case, mem: &mut Memory) -> Reply {
    let [kind, s, seed, 0] = case.words else {
        return Err(Failure::BadCase);
    };
    let view = View::try_from(kind % 16)?;
    let effect = stack::frame(stacking(seed, s), truth(kind / 16)?);
    let shown = carried_out(mem, seed, effect).map(|left| left.shown(mem, view));
    unstack(mem, s);
    Ok(shown?)
}

// The registers and the wait state that are left.
#[derive(Clone, Copy)]
pub struct Left {
    pub regs: Set,
    pub wait: Wait,
}

// What an effect writes is stored.
pub fn carried_out(mem: &mut Memory, ram_top: u16, effect: Effect) -> Result<Left, Refusal> {
    memory::store_all(mem, ram_top, effect.writes);
    effect.answer?;
    Ok(Left {
        regs: effect.regs,
        wait: effect.wait,
    })
}

impl Left {
    pub fn shown(self, mem: &Memory, view: View) -> Words {
        let regs = self.regs;
        let word = |above: u16| raw_word(mem, regs.s, above);
        match view {
            View::Codes => [regs.pc, regs.s, regs.cc.reg as u16],
            View::Near => [word(0), word(2), word(4)],
            View::Far => [word(6), word(8), word(10)],
            View::Rest => [
                others(regs),
                short_digest(mem),
                machine::wait_byte(self.wait) as u16,
            ],
        }
    }
}

// The registers that an interrupt leaves alone, each with a factor of its own.
fn others(regs: Set) -> u16 {
    let bytes = regs.a as u32 + 3 * regs.b as u32 + 5 * regs.dp as u32;
    let words = 7 * regs.x as u32 + 9 * regs.y as u32 + 11 * regs.u as u32;
    let d = regs.get_register(Name::D).u16() as u32;
    ((bytes + words + 13 * d) % 0x10000) as u16
}

// A frame has at most twelve bytes, and they lie below S.
pub fn unstack(mem: &mut Memory, s: u16) {
    for below in 1..=12 {
        put_back(mem, s.wrapping_sub(below) as u32);
    }
}
