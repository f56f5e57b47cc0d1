// The run file (document 01, "The run program"): which files are sound, what a sound one sets and places, and its operations.
#![tactic(auto)]

ghost use Rattle.std.specs.Prelude.{◌≡◌, ◌≤◌, length, get_or};
ghost use Rattle.runfile.specs.Format.{file_settings, room, word_in, piece_at, pieces_at, operation_at, operations_at, flagged_at, after_settings, wholly, parsed, next_of, loaded, placed, end_of, laid_of, settled};

use answers::Refusal;
use registers::Flags;

// The longest run file.
pub const LONGEST: usize = 32768;

#[derive(Clone, Copy)]
pub enum Operation {
    Step,
    Irq,
    Firq,
    Nmi,
    Reset,
    Undo,
}

// What a file sets. An enum can hold no array, so the settings of the calls, which have a profile, are made of it later: a run allows all
// stores.
#[derive(Clone, Copy)]
pub struct FileSettings {
    pub ram_top: u16,
    pub flags: Flags,
}

impl FileSettings {
    fn new(ram_top: u16, flags: Flags) -> FileSettings
        ensures { result ≡ file_settings ram_top flags }
    {
        FileSettings { ram_top, flags }
    }
}

// What a sound file sets, and where its operations start: they are its last bytes.
#[derive(Clone, Copy)]
pub struct Start {
    pub operations: usize,
    pub settings: FileSettings,
}

// Whether n bytes stand from a place on. The sum of the two could wrap.
// File and place stand apart, as in the definitions (`word_in`, `piece_at`): a struct of both would be opened in each contract.
fn has(file: &[u8], at: usize, n: usize) -> bool
    ensures { result ≡ room file.now at n }
{
    n <= file.len() && at <= file.len() - n
}

// 0 past the end.
// No Option: `word`, which is public, promises 0 there.
fn byte(file: &[u8], at: usize) -> u8
    ensures { result ≡ get_or file.now at 0 }
{
    file.get(at).copied().unwrap_or(0)
}

// The word of two bytes, high byte first. A byte past the end is 0.
pub fn word(file: &[u8], at: usize) -> u16
    ensures { result ≡ word_in file.now at }
{
    if at < file.len() {
        u16::from_be_bytes([byte(file, at), byte(file, at + 1)])
    } else {
        0
    }
}

// The place after a piece. If it is missing: a place past the file, where nothing stands.
fn piece_end(file: &[u8], at: usize) -> usize
    ensures { result ≡ end_of (length file.now) (piece_at file.now at) }
{
    if !has(file, at, 4) {
        return file.len() + 1;
    }
    let address = word(file, at);
    let size = word(file, at + 2);
    let from = at + 4;
    if has(file, from, size as usize) && address as u32 + size as u32 <= 0x10000 {
        from + size as usize
    } else {
        file.len() + 1
    }
}

// The place after so many pieces, or past the file.
// Three such walks: one of them all would take what a turn does as a closure, and each call be no shorter than its loop.
fn pieces_end(file: &[u8], count: u16, at: usize) -> usize
    ensures { result ≡ end_of (length file.now) (pieces_at file.now count at) }
{
    let mut next = at;
    for _passed in 0..count {
        next = piece_end(file, next);
    }
    next
}

// Lays so many pieces, which are known to stand there, in order.
fn place(mem: &mut [u8], file: &[u8], count: u16, at: usize)
    requires { end_of (length file.now) (pieces_at file.now count at) ≤ length file.now }
    ensures { mem.new ≡ laid_of (pieces_at file.now count at) mem.old }
{
    let mut next = at;
    for _passed in 0..count {
        let address = word(file, next) as usize;
        let from = next + 4;
        let end = piece_end(file, next);
        text::put(mem, address, &file[from..end]);
        next = end;
    }
}

// The numbers are the file's; here they become operations, and nowhere else.
pub fn operation_at(file: &[u8], at: usize) -> Option<Operation>
    ensures { result ≡ next_of (operation_at file.now at) }
{
    match *file.get(at)? {
        0 => Some(Operation::Step),
        1 => Some(Operation::Irq),
        2 => Some(Operation::Firq),
        3 => Some(Operation::Nmi),
        4 => Some(Operation::Reset),
        5 => Some(Operation::Undo),
        _ => None,
    }
}

// The place after so many operations, or past the file.
fn operations_end(file: &[u8], count: u16, at: usize) -> usize
    ensures { result ≡ end_of (length file.now) (operations_at file.now count at) }
{
    let mut next = at;
    for _passed in 0..count {
        match operation_at(file, next) {
            None => return file.len() + 1,
            Some(_) => next += 1,
        }
    }
    next
}

// Memory is written once the whole file is known to be sound.
fn load_after(
    mem: &mut [u8],
    file: &[u8],
    settings: FileSettings,
    at: usize,
) -> Result<Start, Refusal>
    ensures { (result ≡ loaded (length file.now) (wholly (length file.now) (after_settings file.now settings at))) × (mem.new ≡ placed (wholly (length file.now) (after_settings file.now settings at)) mem.old) }
{
    if !has(file, at, 2) {
        return Err(Refusal::Malformed);
    }
    let count = word(file, at);
    let from = at + 2;
    let next = pieces_end(file, count, from);
    if !has(file, next, 2) {
        return Err(Refusal::Malformed);
    }
    let operations = next + 2;
    if operations_end(file, word(file, next), operations) != file.len() {
        return Err(Refusal::Malformed);
    }
    place(mem, file, count, from);
    Ok(Start {
        operations,
        settings,
    })
}

// Settings of three bytes: ram_top, and flags at place 4.
// The numbers of the flags, and of the form in `load`, are the file's; they are read here alone.
fn load_flagged(mem: &mut [u8], file: &[u8], ram_top: u16) -> Result<Start, Refusal>
    ensures { (result ≡ loaded (length file.now) (wholly (length file.now) (settled file.now (flagged_at file.now ram_top 4)))) × (mem.new ≡ placed (wholly (length file.now) (settled file.now (flagged_at file.now ram_top 4))) mem.old) }
{
    if file.len() <= 4 {
        return Err(Refusal::Malformed);
    }
    match file[4] {
        0 => load_after(mem, file, FileSettings::new(ram_top, Flags::Bought), 5),
        1 => load_after(mem, file, FileSettings::new(ram_top, Flags::Manual), 5),
        _ => Err(Refusal::Malformed),
    }
}

pub fn load(mem: &mut [u8], file: &[u8]) -> Result<Start, Refusal>
    ensures { (result ≡ loaded (length file.now) (parsed file.now)) × (mem.new ≡ placed (parsed file.now) mem.old) }
{
    if LONGEST < file.len() {
        return Err(Refusal::Malformed);
    }
    if !has(file, 0, 4) {
        return Err(Refusal::Malformed);
    }
    let ram_top = word(file, 2);
    match word(file, 0) {
        2 => load_after(mem, file, FileSettings::new(ram_top, Flags::Manual), 4),
        3 => load_flagged(mem, file, ram_top),
        _ => Err(Refusal::Malformed),
    }
}
