// "A number is written in groups of seven bits, lowest first, the top bit set on all groups but the last, shortest form, at most nine groups."
#![tactic(auto)]

ghost use Rattle.std.specs.Prelude.{◌≡◌, ◌+◌, ◌^◌, ◌<◌, ◌≤◌, length, drop};
ghost use Rattle.std.proofs.lemmas.List.Edits.{sets};
ghost use Rattle.rules.specs.Numbers.{number, number_bytes};
ghost use Rattle.rules.specs.Written.{write_number};
ghost use Rattle.refusal.specs.Refusal.{answer_of};
ghost use Rattle.number.specs.Numbers.{number_read, last_group, written_of, left_from};

use refusal::Refusal;

// 22: "value of 2^63 or more to write".
const LIMIT: u64 = 1 << 63;

// The last group, with so many before it: "the last of several groups is 0" is 19.
fn last_group(before: usize, value: u64, group: u64, next: usize) -> Result<(u64, usize), Refusal>
    ensures { answer_of result ≡ last_group before value group next }
{
    if 0 < before && group == 0 {
        return Err(Refusal::BadNumber);
    }
    Ok((value, next))
}

// Reads the number that stands at a place: with the place past it, or 18 or 19. Always in its caller's place in the program: a call, and an answer that is put
// into memory and taken out again, cost more than a short number does.
#[inline(always)]
pub fn read_number(bytes: &[u8], from: usize) -> Result<(u64, usize), Refusal>
    ensures { answer_of result ≡ number_read bytes.now (number (drop from bytes.now)) }
{
    let mut value: u64 = 0;
    let mut scale: u64 = 1;
    for before in 0..9 {
        let at = from + before;
        let Some(&byte) = bytes.get(at) else {
            return Err(Refusal::BytesEnd);
        };
        let group = u64::from(byte);
        if group < 128 {
            return last_group(before, value + scale * group, group, at + 1);
        }
        value += scale * (group - 128);
        scale *= 128;
    }
    Err(Refusal::BadNumber)
}

// How many bytes a number takes: one for each seven bits up to its highest, and one for 0.
#[tactic(auto, using(crate::proofs::Sizes::size_is))]
pub fn number_size(value: u64) -> usize
    requires { value < 2 ^ 63 }
    ensures { (result ≡ length (number_bytes value)) × (result ≤ 9) }
{
    value.max(1).ilog2() as usize / 7 + 1
}

// Stores a number that fits, and gives the place past it.
pub fn put_number(bytes: &mut [u8], from: usize, value: u64) -> usize
    requires { (value < 2 ^ 63) × (from + length (number_bytes value) ≤ length bytes.old) }
    ensures { (result ≡ from + length (number_bytes value)) × (bytes.new ≡ sets bytes.old from (number_bytes value)) }
{
    let last = from + number_size(value) - 1;
    let mut rest = value;
    for at in from..last {
        bytes[at] = (128 + rest % 128) as u8;
        rest /= 128;
    }
    bytes[last] = rest as u8;
    last + 1
}

// Writes a number from a place on, and gives how many bytes it takes: 22, then 21, and a refusal leaves the bytes as they were.
pub fn write_number(bytes: &mut [u8], from: usize, value: u64) -> Result<usize, Refusal>
    ensures value { answer_of result ≡ written_of (write_number value (drop from bytes.old)) }
    ensures bytes_after { bytes.new ≡ left_from from bytes.old (write_number value (drop from bytes.old)) }
{
    if LIMIT <= value {
        return Err(Refusal::TooLarge);
    }
    let size = number_size(value);
    if bytes.len() < from {
        return Err(Refusal::NoRoom);
    }
    if bytes.len() - from < size {
        return Err(Refusal::NoRoom);
    }
    put_number(bytes, from, value);
    Ok(size)
}
