// What differs between two dumps, a line for each entry.
ghost use Rattle.std.specs.Prelude.{true, ◌≡◌, ◌*◌, ◌≤◌, length};
ghost use Rattle.std.proofs.lemmas.List.Edits.{sets};
ghost use Rattle.answers.specs.Numbers.{number_of};
ghost use Rattle.answers.specs.declared.Refusal.TheVariants.{Malformed};
ghost use Rattle.text.specs.Lines.{alone};
ghost use Rattle.dump.specs.Dumps.{is_dump};
ghost use Rattle.dump.specs.Told.{list_lines, told_lines, dump_differences, differences_told};

use super::lines::put_line;
use super::{DUMP, is_dump};
use answers::Refusal;
use difference::ENTRY;
use machine::HEADER;

// No list is longer (`ceiling` of `difference`).
const LIST: usize = ENTRY * 32781;

fn room() -> [u8; LIST]
    ensures { 17 * 32781 ≡ length result }
{
    [0; LIST]
}

fn put_lines(list: &[u8], count: usize, out: &mut [u8]) -> usize
    requires { count ≤ 32781 }
    ensures { (result ≡ length (list_lines list.now count 0)) × (out.new ≡ sets out.old 0 (list_lines list.now count 0)) }
{
    let mut at = 0;
    for k in 0..count {
        at = put_line(out, at, difference::entry_at(list, k));
    }
    at
}

fn put_differences(left: &[u8], right: &[u8], out: &mut [u8]) -> usize
    requires { (is_dump left.now ≡ true) × (is_dump right.now ≡ true) }
    ensures { (result ≡ length (told_lines (dump_differences left.now right.now))) × (out.new ≡ sets out.old 0 (told_lines (dump_differences left.now right.now))) }
{
    let mut list = room();
    let compared = difference::compare(
        machine::machine_of(left),
        &left[HEADER..],
        machine::machine_of(right),
        &right[HEADER..],
        &mut list,
    );
    let Ok(count) = compared else { unreachable!() };
    put_lines(&list, count, out)
}

// Each crate that prints has this line for itself: `text` knows no refusals.
fn put_refusal(out: &mut [u8]) -> usize
    ensures { (result ≡ length (alone (number_of Malformed))) × (out.new ≡ sets out.old 0 (alone (number_of Malformed))) }
{
    text::alone(Refusal::Malformed.number()).put(out, 0)
}

// Writes what is printed of two dumps, one after the other, at the front of `out`, and returns its length.
pub fn tell(input: &[u8], out: &mut [u8]) -> usize
    ensures { (result ≡ length (differences_told input.now)) × (out.new ≡ sets out.old 0 (differences_told input.now)) }
{
    match input.split_at_checked(DUMP) {
        Some((left, right)) if is_dump(left) && is_dump(right) => put_differences(left, right, out),
        _ => put_refusal(out),
    }
}
