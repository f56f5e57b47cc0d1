// An interrupt that is served: its frame is stacked, its masks are set, its vector is taken.
ghost use Rattle.std.specs.Prelude.{◌≡◌};
ghost use Rattle.vectors.specs.Service.{vectored, served};

use super::table::Vector;
use answers::Refusal;
use machine::{Effect, Settings};
use registers::Set;

// After a frame; with nothing stacked it is an interrupt in CWAI. The fence judges the frame; then the vector is read as it is once the
// frame is stored. An effect is no Result, so that no `?` hands a refusal on: it gives back the registers from before the frame.
pub fn take_vector(
    mem: &[u8],
    settings: Settings,
    before: Set,
    frame: Effect,
    vector: Vector,
) -> Effect
    ensures { result ≡ vectored mem.now settings before frame vector }
{
    if let Err(refusal) = frame.answer {
        return Effect::refuses(before, refusal);
    }
    if machine::bars(settings, frame.writes) {
        return Effect::refuses(before, Refusal::Fenced);
    }
    let pc = memory::read_u16_after(mem, settings.ram_top, frame.writes, vector.address());
    if memory::read_u8_after(mem, settings.ram_top, frame.writes, pc) == 0 {
        return Effect::refuses(before, Refusal::ZeroAtVector);
    }
    let masked = operations::or_codes(frame.regs, vector.masks());
    Effect::stores(operations::jump(masked, pc), frame.writes)
}

pub fn serve(mem: &[u8], settings: Settings, regs: Set, vector: Vector) -> Effect
    ensures { result ≡ served mem.now settings regs vector }
{
    let frame = stack::frame(regs, vector.is_entire());
    take_vector(mem, settings, regs, frame, vector)
}
