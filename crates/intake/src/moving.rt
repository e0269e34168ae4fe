// Bytes moved within a buffer.
ghost use Rattle.intake.specs.Intake.{Moves};

// Moves the bytes from one offset up to another to the front, where the next read goes on behind them, and returns how many they
// are. The others stay as they are.
pub fn to_front(buf: &mut [u8], from: usize, to: usize) -> usize
    ensures { Moves from to buf.old result buf.new }
{
    let end = to.min(buf.len());
    if end < from {
        return 0;
    }
    buf.copy_within(from..end, 0);
    end - from
}
