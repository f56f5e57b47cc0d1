// The front of the lines that are printed.
use super::line::Line;
use answers::Refusal;

// Both kinds of lines start with the number of the line that is answered and the last call's answer.
pub fn put_front(out: &mut [u8], line: &Line, answer: Result<(), Refusal>) {
    text::put(out, 0, &line[..3]);
    scenery::put_decimal(out, 6, answers::number(&answer) as u64);
}
