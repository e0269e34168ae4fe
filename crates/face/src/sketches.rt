// Fresh sketches, packets put in and taken out, sums and differences of two sketches, and folds, for C.
ghost use Rattle.std.specs.Prelude.{true, false};
ghost use Rattle.sketch.specs.Sketch.{sketch};
ghost use Rattle.face.specs.Returned.{params_of};
ghost use Rattle.face.specs.Calls.{FreshenedFor, InsertedFor, WithdrawnFor, AllInsertedFor, CombinedFor, FoldedFor};

use crate::returned::{params_of, return_answer, return_params, wide};
use fold::fold;
use sketch::packets::{fresh, insert, insert_all, withdraw};
use sums::{add, subtract};

// Zeros everywhere, whatever was there.
pub fn gabunlitik_fresh(
    params: &[u32; 14],
    counts: &mut [i32],
    idsums: &mut [u32],
    place: &mut usize,
) -> u32
    ensures { FreshenedFor (params_of params.now) (sketch counts.old idsums.old) result place.new (sketch counts.new idsums.new) }
{
    let cleared = fresh(params_of(params), counts, idsums);
    return_answer(&cleared, place)
}

// Puts `number` packets of a flow in.
pub fn gabunlitik_insert(
    params: &[u32; 14],
    counts: &mut [i32],
    idsums: &mut [u32],
    flow: u32,
    number: u32,
    place: &mut usize,
) -> u32
    ensures { InsertedFor (params_of params.now) flow number (sketch counts.old idsums.old) result place.new (sketch counts.new idsums.new) }
{
    let inserted = insert(params_of(params), counts, idsums, flow, number);
    return_answer(&inserted, place)
}

// Takes `number` packets of a flow out again.
pub fn gabunlitik_withdraw(
    params: &[u32; 14],
    counts: &mut [i32],
    idsums: &mut [u32],
    flow: u32,
    number: u32,
    place: &mut usize,
) -> u32
    ensures { WithdrawnFor (params_of params.now) flow number (sketch counts.old idsums.old) result place.new (sketch counts.new idsums.new) }
{
    let withdrawn = withdraw(params_of(params), counts, idsums, flow, number);
    return_answer(&withdrawn, place)
}

// Puts many packets in, each flow by its number, or none of them.
pub fn gabunlitik_insert_all(
    params: &[u32; 14],
    counts: &mut [i32],
    idsums: &mut [u32],
    flows: &[u32],
    numbers: &[u32],
    place: &mut usize,
) -> u32
    ensures { AllInsertedFor (params_of params.now) flows.now numbers.now (sketch counts.old idsums.old) result place.new (sketch counts.new idsums.new) }
{
    let all_inserted = insert_all(params_of(params), counts, idsums, flows, numbers);
    return_answer(&all_inserted, place)
}

// Adds the other sketch to the first, bucket by bucket.
pub fn gabunlitik_add(
    params: &[u32; 14],
    other_params: &[u32; 14],
    counts: &mut [i32],
    idsums: &mut [u32],
    other_counts: &[i32],
    other_idsums: &[u32],
    place: &mut usize,
) -> u32
    ensures { CombinedFor false (params_of params.now) (params_of other_params.now) (sketch counts.old idsums.old) (sketch other_counts.now other_idsums.now) result place.new (sketch counts.new idsums.new) }
{
    let p = params_of(params);
    let q = params_of(other_params);
    let added = add(p, q, counts, idsums, other_counts, other_idsums);
    return_answer(&added, place)
}

// Takes the other sketch from the first, bucket by bucket.
pub fn gabunlitik_subtract(
    params: &[u32; 14],
    other_params: &[u32; 14],
    counts: &mut [i32],
    idsums: &mut [u32],
    other_counts: &[i32],
    other_idsums: &[u32],
    place: &mut usize,
) -> u32
    ensures { CombinedFor true (params_of params.now) (params_of other_params.now) (sketch counts.old idsums.old) (sketch other_counts.now other_idsums.now) result place.new (sketch counts.new idsums.new) }
{
    let p = params_of(params);
    let q = params_of(other_params);
    let subtracted = subtract(p, q, counts, idsums, other_counts, other_idsums);
    return_answer(&subtracted, place)
}

// Folds a sketch to m2 buckets an array, and writes its parameters, all 0 where it is refused.
pub fn gabunlitik_fold(
    params: &[u32; 14],
    counts: &mut [i32],
    idsums: &mut [u32],
    m2: u32,
    folded_params: &mut [u32; 14],
    place: &mut usize,
) -> u32
    ensures { FoldedFor (params_of params.now) m2 (sketch counts.old idsums.old) result place.new folded_params.new (sketch counts.new idsums.new) }
{
    let folded = fold(params_of(params), counts, idsums, wide(m2));
    return_params(folded, folded_params, place)
}
