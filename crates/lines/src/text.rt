// Words and numbers in ASCII, written into lent bytes from an offset on; each function gives the offset after what it wrote.
ghost use Rattle.std.specs.Prelude.{◌++◌, ◌+◌, ◌≤◌, length};
ghost use Rattle.walk.specs.Endings.{ending_word};
ghost use Rattle.lines.specs.Decimal.{decimal, signed_decimal};
ghost use Rattle.lines.specs.Texts.{TextWritten};

use walk::Ending;

// Copies a word.
pub(crate) fn put(out: &mut [u8], at: usize, word: &[u8]) -> usize
    requires { at + length word.now ≤ length out.old }
    ensures { TextWritten word.now out.old at result out.new }
{
    let end = at + word.len();
    out[at..end].copy_from_slice(word);
    end
}

// Writes a number in decimal.
pub(crate) fn put_decimal(out: &mut [u8], at: usize, n: u64) -> usize
    requires { at + length (decimal n) ≤ length out.old }
    ensures { TextWritten (decimal n) out.old at result out.new }
{
    if n < 10 {
        out[at] = b'0' + n as u8;
        return at + 1;
    }
    let next = put_decimal(out, at, n / 10);
    out[next] = b'0' + (n % 10) as u8;
    next + 1
}

// Writes a number in decimal, with a leading - when it is negative.
pub(crate) fn put_signed(out: &mut [u8], at: usize, z: i64) -> usize
    requires { at + 21 ≤ length out.old }
    ensures { TextWritten (signed_decimal z) out.old at result out.new }
{
    if z < 0 {
        out[at] = b'-';
        return put_decimal(out, at + 1, z.unsigned_abs());
    }
    put_decimal(out, at, z.unsigned_abs())
}

// Writes a word and then a number in decimal.
pub(crate) fn put_named(out: &mut [u8], at: usize, word: &[u8], n: u64) -> usize
    requires { at + length word.now + length (decimal n) ≤ length out.old }
    ensures { TextWritten (word.now ++ decimal n) out.old at result out.new }
{
    let next = put(out, at, word);
    put_decimal(out, next, n)
}

// Writes a word and then a number in decimal, with a leading - when it is negative.
pub(crate) fn put_named_signed(out: &mut [u8], at: usize, word: &[u8], z: i64) -> usize
    requires { at + length word.now + 21 ≤ length out.old }
    ensures { TextWritten (word.now ++ signed_decimal z) out.old at result out.new }
{
    let next = put(out, at, word);
    put_signed(out, next, z)
}

// Writes the word of an ending.
pub(crate) fn put_ending(out: &mut [u8], at: usize, ending: Ending) -> usize
    requires { at + 5 ≤ length out.old }
    ensures { TextWritten (ending_word ending) out.old at result out.new }
{
    match ending {
        Ending::Clean => put(out, at, b"clean"),
        Ending::Stuck => put(out, at, b"stuck"),
        Ending::Spent => put(out, at, b"spent"),
        Ending::Range => put(out, at, b"range"),
        Ending::Full => put(out, at, b"full"),
    }
}
