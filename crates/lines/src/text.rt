// Text put into a lent buffer from a place on: bytes as they are, and numbers in decimal.
ghost use Rattle.std.specs.Prelude.{◌≡◌, ◌++◌, ◌+◌, ◌≤◌, length};
ghost use Rattle.rules.specs.Session.{decimal};
ghost use Rattle.lines.specs.Text.{Put, PutWithin};

#[tactic(auto, using(crate::proofs::Putting::put_part))]
pub fn put_text(buf: &mut [u8], from: usize, text: &[u8]) -> usize
    requires { from + length text.now ≤ length buf.old }
    ensures { Put buf.old from text.now buf.new result }
{
    let end = from + text.len();
    buf[from..end].copy_from_slice(text);
    end
}

// How many digits a number has: 0 has one.
#[tactic(auto, using(crate::proofs::Decimal::length_is))]
fn decimal_size(n: u64) -> usize
    ensures { result ≡ length (decimal n) }
{
    n.max(1).ilog10() as usize + 1
}

// The last digit first, each at its place.
pub(crate) fn put_decimal(buf: &mut [u8], from: usize, n: u64) -> usize
    requires { from + length (decimal n) ≤ length buf.old }
    ensures { Put buf.old from (decimal n) buf.new result }
{
    let size = decimal_size(n);
    let mut rest = n;
    // By index: of a slice that `iter_mut().rev()` has walked, a proof knows the length and not what stands there
    for at in (from..from + size).rev() {
        buf[at] = b'0' + (rest % 10) as u8;
        rest /= 10;
    }
    from + size
}

// A word and the number that it names, which has at most 20 digits.
pub(crate) fn put_field(buf: &mut [u8], from: usize, word: &[u8], n: u64) -> usize
    requires { from + (length word.now + 20) ≤ length buf.old }
    ensures { PutWithin (length word.now + 20) buf.old from (word.now ++ decimal n) buf.new result }
{
    let at = put_text(buf, from, word);
    put_decimal(buf, at, n)
}
