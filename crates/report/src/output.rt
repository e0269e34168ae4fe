// The output: all lines in one buffer, written out at once.
use crate::MOST;
use lines::lines::LINE_ROOM;
use params::Refusal;
use peel::peeling::Figures;

// Room for a line for each entry, each bucket and the end.
const ROOM: usize = LINE_ROOM * (2 * MOST + 1);

// The one line of a refusal.
pub(crate) fn refusal(rt: &(impl Print + Eprint), refusal: Refusal, at: usize) {
    let mut out = [0u8; LINE_ROOM];
    let n = lines::lines::refused_line(&mut out, refusal, at);
    write_front(rt, &out, n);
}

// The table, what is left in the buckets, and how the walk ended.
pub(crate) fn report(
    rt: &(impl Print + Eprint),
    flows: &[u32],
    numbers: &[i32],
    counts: &[i32],
    idsums: &[u32],
    figures: Figures,
) {
    let mut out: [u8; ROOM] = [0; ROOM];
    let ending = figures.ending;
    let n = lines::reports::report(
        &mut out,
        flows,
        numbers,
        figures.entries,
        counts,
        idsums,
        ending,
        figures.pops,
        figures.lost,
        figures.extra,
    );
    write_front(rt, &out, n);
}

// The line where a read failed: what came before it is no whole input, and is not reported.
pub(crate) fn cannot_read(rt: &impl Eprint) {
    let _ = rt.eprintln("report: cannot read standard input");
}

// Where a write fails the output lacks its end, and a line on standard error says so.
fn write_front(rt: &(impl Print + Eprint), out: &[u8], n: usize) {
    if out.len() < n {
        return;
    }
    if rt.write_all(&out[0..n]).is_err() {
        let _ = rt.eprintln("report: cannot write standard output");
    }
}
