// Peeling, for C.
ghost use Rattle.peel.specs.Slices.{slices};
ghost use Rattle.face.specs.Returned.{params_of};
ghost use Rattle.face.specs.Calls.{PeelsFor};

use crate::returned::{params_of, return_peeled};
use peel::peeling::peel;

// Peels a sketch into a table and returns in `figures` the ending's number, the entries, the packets lost, those extra and the pops, in this order.
pub fn gabunlitik_peel(
    params: &[u32; 14],
    counts: &mut [i32],
    idsums: &mut [u32],
    table_flows: &mut [u32],
    table_counts: &mut [i32],
    queue: &mut [u32],
    marks: &mut [u32],
    allowance: u32,
    figures: &mut [u64; 5],
    place: &mut usize,
) -> u32
    ensures { PeelsFor (params_of params.now) allowance (slices counts.old idsums.old table_flows.old table_counts.old queue.old marks.old) result place.new figures.new (slices counts.new idsums.new table_flows.new table_counts.new queue.new marks.new) }
{
    let peeled = peel(
        params_of(params),
        counts,
        idsums,
        table_flows,
        table_counts,
        queue,
        marks,
        allowance,
    );
    return_peeled(peeled, figures, place)
}
