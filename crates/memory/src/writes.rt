// The writes of a call: a list of them, carried out in order, and memory read as it will be after them.
ghost use Rattle.std.specs.Prelude.{◌≡◌, ℕ, ◌≤◌, List, [], ◌∷◌, length, if◌then◌else◌, slice_index};
ghost use Rattle.memory.specs.Map.{byte_at, word_at, landing_of};
ghost use Rattle.memory.specs.Writes.{writes_of, listed, added, added_all, word_writes, put_at, device_at, stored, reported};

use crate::{Landing, map};

// A byte to be written. Its four bytes leave no gap, so that a list of writes is copied as one block.
#[derive(Clone, Copy, PartialEq, Eq)]
pub struct Write {
    pub at: u16,
    pub byte: u8,
    pub system: bool,
}

// At most twelve writes, in order.
// A count beside its places, and no `Vec`: the libraries have no heap.
#[derive(Clone, Copy)]
pub struct Writes {
    pub count: usize,
    pub list: [Write; 12],
}

impl Writes {
    pub fn none() -> Writes
        ensures { result ≡ writes_of [] }
    {
        Writes {
            count: 0,
            list: [Write {
                at: 0,
                byte: 0,
                system: false,
            }; 12],
        }
    }

    // One more write, where there is room.
    pub fn add(self, one: Write) -> Writes
        ensures { result ≡ added self one }
    {
        // Named, since it is tested, is the place, and is counted on.
        let n = self.count;
        if n < 12 {
            let mut more = self;
            more.list[n] = one;
            more.count = n + 1;
            more
        } else {
            self
        }
    }

    // A word's two bytes, high byte first.
    pub fn add_word(self, at: u16, word: u16, system: bool) -> Writes
        ensures { result ≡ added_all self (word_writes at word system) }
    {
        let [high, low] = word.to_be_bytes();
        let next = at.wrapping_add(1);
        self.add(Write {
            at,
            byte: high,
            system,
        })
        .add(Write {
            at: next,
            byte: low,
            system,
        })
    }

    // The writes in it. It has a count beside its places, and no `Vec`: the libraries have no heap.
    pub fn as_slice(&self) -> &[Write]
        ensures writes { result.now ≡ listed self.now }
        ensures few { length result.now ≤ 12 }
    {
        &self.list[..self.count.min(12)]
    }
}

// One write carried out, and whether it is a device's.
// An index and no `get_mut`: with `get_mut` the proof did not close.
fn store(mem: &mut [u8], ram_top: u16, one: Write) -> bool
    ensures { (device_at (landing_of one.at ram_top one.system) one ≡ (if result then one ∷ [] else [])) × (mem.new ≡ put_at (landing_of one.at ram_top one.system) one.byte mem.old) }
{
    match map::lands(one.at, ram_top, one.system) {
        Landing::Stored(p) => {
            let q = p as usize;
            if q < mem.len() {
                mem[q] = one.byte;
            }
            false
        }
        Landing::Device => true,
        Landing::Ignored => false,
    }
}

// The writes of a call, carried out in order. Those for devices are handed back.
// Memory, ram_top and writes come apart: here memory is lent to be written, and to the reads below to be read alone.
pub fn store_all(mem: &mut [u8], ram_top: u16, writes: Writes) -> Writes
    ensures { (result ≡ writes_of (reported ram_top (listed writes))) × (mem.new ≡ stored ram_top (listed writes) mem.old) }
{
    let mut devices = Writes::none();
    for one in writes.as_slice() {
        if store(mem, ram_top, *one) {
            devices = devices.add(*one);
        }
    }
    devices
}

// A byte as one write leaves it: b before, at the place p of a memory of this size.
fn over(b: u8, p: u16, size: usize, ram_top: u16, one: Write) -> u8
    ensures { (old : List ℕ) → length old ≡ size → b ≡ slice_index old p → result ≡ slice_index (put_at (landing_of one.at ram_top one.system) one.byte old) p }
{
    match map::lands(one.at, ram_top, one.system) {
        Landing::Stored(q) if q == p && (p as usize) < size => one.byte,
        _ => b,
    }
}

// The byte that a read gives once the writes are made, which are still to be made.
pub fn read_u8_after(mem: &[u8], ram_top: u16, writes: Writes, at: u16) -> u8
    ensures { result ≡ byte_at (stored ram_top (listed writes) mem.now) at }
{
    let place = map::place(at);
    let mut b = map::read_u8(mem, at);
    for one in writes.as_slice() {
        b = over(b, place, mem.len(), ram_top, *one);
    }
    b
}

// Made of `read_u8_after`, as `read_u16` is of `read_u8`: the two bytes of a word may lie apart.
pub fn read_u16_after(mem: &[u8], ram_top: u16, writes: Writes, at: u16) -> u16
    ensures { result ≡ word_at (stored ram_top (listed writes) mem.now) at }
{
    let high = read_u8_after(mem, ram_top, writes, at);
    let low = read_u8_after(mem, ram_top, writes, at.wrapping_add(1));
    u16::from_be_bytes([high, low])
}
