// example: what two switches of a line see, as sketches, and what was lost between them. README quotes the body of main.
#![tactic(auto)]

use lines::lines::LINE_ROOM;
use params::{Params, Refused};
use peel::Figures;
use peel::peeling::peel;
use sketch::packets::insert;
use sums::subtract;

// Room for a line for each of ten entries and ten buckets, and for the end.
const ROOM: usize = 21 * LINE_ROOM;

fn main(rt: HostRuntime) -> Result<(), Refused> {
    // two arrays of five buckets, each with a multiplier and an offset; no fifth pair, so flows have no fingerprints
    let p = Params {
        d: 2,
        m: 5,
        a: [1, 1073741824, 0, 0],
        b: [0; 4],
        a5: 0,
        b5: 0,
    };
    // upstream three packets of flow 7 and two of flow 12 are seen, downstream two of flow 7
    let mut counts = [0i32; 10];
    let mut idsums = [0u32; 10];
    insert(p, &mut counts, &mut idsums, 7, 3)?;
    insert(p, &mut counts, &mut idsums, 12, 2)?;
    let mut down_counts = [0i32; 10];
    let mut down_idsums = [0u32; 10];
    insert(p, &mut down_counts, &mut down_idsums, 7, 2)?;
    // the difference, peeled into a table with at most 80 pops
    subtract(p, p, &mut counts, &mut idsums, &down_counts, &down_idsums)?;
    let mut flows = [0u32; 10];
    let mut numbers = [0i32; 10];
    let mut queue = [0u32; 10];
    let mut marks = [0u32; 10];
    let figures = peel(
        p,
        &mut counts,
        &mut idsums,
        &mut flows,
        &mut numbers,
        &mut queue,
        &mut marks,
        80,
    )?;
    print(&rt, &flows, &numbers, &counts, &idsums, figures);
    Ok(())
}

// The lines of a report: the table, what is left in the buckets, and how the walk ended.
fn print(
    rt: &impl Print,
    flows: &[u32],
    numbers: &[i32],
    counts: &[i32],
    idsums: &[u32],
    figures: Figures,
) {
    let mut out: [u8; ROOM] = [0; ROOM];
    let ending = figures.ending;
    let n = lines::reports::report(
        &mut out,
        flows,
        numbers,
        figures.entries,
        counts,
        idsums,
        ending,
        figures.pops,
        figures.lost,
        figures.extra,
    );
    if n <= ROOM {
        let _ = rt.write_all(&out[0..n]);
    }
}
