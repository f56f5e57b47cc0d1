// The fields of the lines that are printed.
// Numbers are laid at fixed places of a form of bytes, over its zeros, which Display does not do.
ghost use Rattle.std.specs.Prelude.{◌≡◌, get_or};
ghost use Rattle.std.proofs.lemmas.List.Edits.{sets};
ghost use Rattle.std.specs.Int.{w32, w64, to_be_bytes};
ghost use Rattle.text.specs.Hex.{hex2, hex4};
ghost use Rattle.scenery.specs.Printed.{adler, bytes_text, devices_laid, number_laid, view};

use memory::Writes;

pub fn put_byte(out: &mut [u8], at: usize, b: u8)
    ensures { out.new ≡ sets out.old at (hex2 b) }
{
    text::put(out, at, &text::hex2(b));
}

pub fn put_word(out: &mut [u8], at: usize, w: u16)
    ensures { out.new ≡ sets out.old at (hex4 w) }
{
    text::put(out, at, &text::hex4(w));
}

// The bytes' digits, one after the other.
// A place that saturates, here and below, lies past the end of every slice, as the place that is meant: nothing is laid there.
pub fn put_bytes(out: &mut [u8], at: usize, bytes: &[u8])
    ensures { out.new ≡ sets out.old at (bytes_text bytes.now) }
{
    for (i, b) in bytes.iter().enumerate() {
        put_byte(out, at.saturating_add(2 * i), *b);
    }
}

// Sixteen digits.
pub fn put_long(out: &mut [u8], at: usize, n: u64)
    ensures { out.new ≡ sets out.old at (bytes_text (to_be_bytes w64 n)) }
{
    put_bytes(out, at, &n.to_be_bytes());
}

// A decimal number that ends before `end`. What stands left of it, zeros, stays; a number longer than its field goes over what is left of it.
pub fn put_decimal(out: &mut [u8], end: usize, n: u64)
    ensures { out.new ≡ number_laid out.old end n }
{
    let number = text::decimal(n);
    if number.len <= end {
        number.put(out, end - number.len);
    }
}

// 0 past the end, and no Option: the line shows 00 there.
pub fn byte_of(bytes: &[u8], at: usize) -> u8
    ensures { result ≡ get_or bytes.now at 0 }
{
    bytes.get(at).copied().unwrap_or(0)
}

// Four bytes of memory, raw; 00 past its end.
pub fn put_view(out: &mut [u8], at: usize, mem: &[u8], place: u16)
    ensures { out.new ≡ sets out.old at (bytes_text (view mem.now place)) }
{
    let p = place as usize;
    let four = [
        byte_of(mem, p),
        byte_of(mem, p + 1),
        byte_of(mem, p + 2),
        byte_of(mem, p + 3),
    ];
    put_bytes(out, at, &four);
}

// Adler-32.
fn adler(bytes: &[u8]) -> u32
    ensures { result ≡ adler bytes.now }
{
    let mut low: u32 = 1;
    let mut high: u32 = 0;
    for b in bytes {
        low = (low + *b as u32) % 65521;
        high = (high + low) % 65521;
    }
    high * 0x1_0000 + low
}

// Adler-32, as eight digits.
pub fn put_sum(out: &mut [u8], at: usize, bytes: &[u8])
    ensures { out.new ≡ sets out.old at (bytes_text (to_be_bytes w32 (adler bytes.now))) }
{
    put_bytes(out, at, &adler(bytes).to_be_bytes());
}

// How many device writes were reported, and the first of them: a number that ends before `at`, four digits and two.
pub fn put_devices(out: &mut [u8], at: usize, devices: Writes)
    ensures { out.new ≡ devices_laid out.old at devices }
{
    let first = devices.list[0];
    put_decimal(out, at, devices.count as u64);
    put_word(out, at.saturating_add(1), first.at);
    put_byte(out, at.saturating_add(6), first.byte);
}
