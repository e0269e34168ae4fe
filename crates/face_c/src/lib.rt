// The exports for C: each call of face under its own name, with its own clauses. include/gabunlitik.h is their header.
#![tactic(auto)]

ghost use Rattle.std.specs.Prelude.{true, false};
ghost use Rattle.sketch.specs.Sketch.{sketch};
ghost use Rattle.face.specs.Returned.{params_of};
ghost use Rattle.face.specs.Calls.{FreshenedFor, InsertedFor, WithdrawnFor, AllInsertedFor, CombinedFor, FoldedFor, PeelsFor, PositionFor, IndexFor, HeadReadFor, StreamReadFor, StreamWrittenFor, SketchReadFor, SketchWrittenFor};
ghost use Rattle.peel.specs.Slices.{slices};

// Zeros everywhere, whatever was there.
#[unsafe(no_mangle)]
pub extern "C" fn gabunlitik_fresh(
    params: &[u32; 14],
    counts: &mut [i32],
    idsums: &mut [u32],
    place: &mut usize,
) -> u32
    ensures { FreshenedFor (params_of params.now) (sketch counts.old idsums.old) result place.new (sketch counts.new idsums.new) }
{
    face::sketches::gabunlitik_fresh(params, counts, idsums, place)
}

// Puts `number` packets of a flow in.
#[unsafe(no_mangle)]
pub extern "C" fn gabunlitik_insert(
    params: &[u32; 14],
    counts: &mut [i32],
    idsums: &mut [u32],
    flow: u32,
    number: u32,
    place: &mut usize,
) -> u32
    ensures { InsertedFor (params_of params.now) flow number (sketch counts.old idsums.old) result place.new (sketch counts.new idsums.new) }
{
    face::sketches::gabunlitik_insert(params, counts, idsums, flow, number, place)
}

// Takes `number` packets of a flow out again.
#[unsafe(no_mangle)]
pub extern "C" fn gabunlitik_withdraw(
    params: &[u32; 14],
    counts: &mut [i32],
    idsums: &mut [u32],
    flow: u32,
    number: u32,
    place: &mut usize,
) -> u32
    ensures { WithdrawnFor (params_of params.now) flow number (sketch counts.old idsums.old) result place.new (sketch counts.new idsums.new) }
{
    face::sketches::gabunlitik_withdraw(params, counts, idsums, flow, number, place)
}

// Puts many packets in, each flow by its number, or none of them.
#[unsafe(no_mangle)]
pub extern "C" fn gabunlitik_insert_all(
    params: &[u32; 14],
    counts: &mut [i32],
    idsums: &mut [u32],
    flows: &[u32],
    numbers: &[u32],
    place: &mut usize,
) -> u32
    ensures { AllInsertedFor (params_of params.now) flows.now numbers.now (sketch counts.old idsums.old) result place.new (sketch counts.new idsums.new) }
{
    face::sketches::gabunlitik_insert_all(params, counts, idsums, flows, numbers, place)
}

// Adds the other sketch to the first, bucket by bucket.
#[unsafe(no_mangle)]
pub extern "C" fn gabunlitik_add(
    params: &[u32; 14],
    other_params: &[u32; 14],
    counts: &mut [i32],
    idsums: &mut [u32],
    other_counts: &[i32],
    other_idsums: &[u32],
    place: &mut usize,
) -> u32
    ensures { CombinedFor false (params_of params.now) (params_of other_params.now) (sketch counts.old idsums.old) (sketch other_counts.now other_idsums.now) result place.new (sketch counts.new idsums.new) }
{
    face::sketches::gabunlitik_add(
        params,
        other_params,
        counts,
        idsums,
        other_counts,
        other_idsums,
        place,
    )
}

// Takes the other sketch from the first, bucket by bucket.
#[unsafe(no_mangle)]
pub extern "C" fn gabunlitik_subtract(
    params: &[u32; 14],
    other_params: &[u32; 14],
    counts: &mut [i32],
    idsums: &mut [u32],
    other_counts: &[i32],
    other_idsums: &[u32],
    place: &mut usize,
) -> u32
    ensures { CombinedFor true (params_of params.now) (params_of other_params.now) (sketch counts.old idsums.old) (sketch other_counts.now other_idsums.now) result place.new (sketch counts.new idsums.new) }
{
    face::sketches::gabunlitik_subtract(
        params,
        other_params,
        counts,
        idsums,
        other_counts,
        other_idsums,
        place,
    )
}

// Folds a sketch to m2 buckets an array, and writes its parameters, all 0 where it is refused.
#[unsafe(no_mangle)]
pub extern "C" fn gabunlitik_fold(
    params: &[u32; 14],
    counts: &mut [i32],
    idsums: &mut [u32],
    m2: u32,
    folded_params: &mut [u32; 14],
    place: &mut usize,
) -> u32
    ensures { FoldedFor (params_of params.now) m2 (sketch counts.old idsums.old) result place.new folded_params.new (sketch counts.new idsums.new) }
{
    face::sketches::gabunlitik_fold(params, counts, idsums, m2, folded_params, place)
}

// Peels a sketch into a table and returns in `figures` the ending's number, the entries, the packets lost, those extra and the pops, in this order.
#[unsafe(no_mangle)]
pub extern "C" fn gabunlitik_peel(
    params: &[u32; 14],
    counts: &mut [i32],
    idsums: &mut [u32],
    table_flows: &mut [u32],
    table_counts: &mut [i32],
    queue: &mut [u32],
    marks: &mut [u32],
    allowance: u32,
    figures: &mut [u64; 5],
    place: &mut usize,
) -> u32
    ensures { PeelsFor (params_of params.now) allowance (slices counts.old idsums.old table_flows.old table_counts.old queue.old marks.old) result place.new figures.new (slices counts.new idsums.new table_flows.new table_counts.new queue.new marks.new) }
{
    face::walks::gabunlitik_peel(
        params,
        counts,
        idsums,
        table_flows,
        table_counts,
        queue,
        marks,
        allowance,
        figures,
        place,
    )
}

// The position of a flow in an array, 0 where it is refused; arrays count from 1.
#[unsafe(no_mangle)]
pub extern "C" fn gabunlitik_position(
    params: &[u32; 14],
    array: u32,
    flow: u32,
    position: &mut usize,
    place: &mut usize,
) -> u32
    ensures { PositionFor (params_of params.now) array flow result place.new position.new }
{
    face::positions::gabunlitik_position(params, array, flow, position, place)
}

// The index of the flow's bucket there, likewise.
#[unsafe(no_mangle)]
pub extern "C" fn gabunlitik_index(
    params: &[u32; 14],
    array: u32,
    flow: u32,
    index: &mut usize,
    place: &mut usize,
) -> u32
    ensures { IndexFor (params_of params.now) array flow result place.new index.new }
{
    face::positions::gabunlitik_index(params, array, flow, index, place)
}

// Writes the parameters in the head of a file, all 0 where it is refused; what stands after the head is not looked at.
#[unsafe(no_mangle)]
pub extern "C" fn gabunlitik_read_head(
    bytes: &[u8],
    params: &mut [u32; 14],
    place: &mut usize,
) -> u32
    ensures { HeadReadFor bytes.now result place.new params.new }
{
    face::filing::gabunlitik_read_head(bytes, params, place)
}

// Inserts the packets of a stream file.
#[unsafe(no_mangle)]
pub extern "C" fn gabunlitik_read_stream(
    params: &[u32; 14],
    counts: &mut [i32],
    idsums: &mut [u32],
    bytes: &[u8],
    place: &mut usize,
) -> u32
    ensures { StreamReadFor (params_of params.now) bytes.now (sketch counts.old idsums.old) result place.new (sketch counts.new idsums.new) }
{
    face::filing::gabunlitik_read_stream(params, counts, idsums, bytes, place)
}

// Writes the stream file of these flows, each by its number.
#[unsafe(no_mangle)]
pub extern "C" fn gabunlitik_write_stream(
    params: &[u32; 14],
    flows: &[u32],
    numbers: &[u32],
    out: &mut [u8],
    length: &mut usize,
    place: &mut usize,
) -> u32
    ensures { StreamWrittenFor (params_of params.now) flows.now numbers.now out.old result place.new length.new out.new }
{
    face::filing::gabunlitik_write_stream(params, flows, numbers, out, length, place)
}

// Reads a sketch file in place of the lent sketch's content.
#[unsafe(no_mangle)]
pub extern "C" fn gabunlitik_read_sketch(
    params: &[u32; 14],
    counts: &mut [i32],
    idsums: &mut [u32],
    bytes: &[u8],
    place: &mut usize,
) -> u32
    ensures { SketchReadFor (params_of params.now) bytes.now (sketch counts.old idsums.old) result place.new (sketch counts.new idsums.new) }
{
    face::filing::gabunlitik_read_sketch(params, counts, idsums, bytes, place)
}

// Writes the file of a sketch.
#[unsafe(no_mangle)]
pub extern "C" fn gabunlitik_write_sketch(
    params: &[u32; 14],
    counts: &[i32],
    idsums: &[u32],
    out: &mut [u8],
    length: &mut usize,
    place: &mut usize,
) -> u32
    ensures { SketchWrittenFor (params_of params.now) (sketch counts.now idsums.now) out.old result place.new length.new out.new }
{
    face::filing::gabunlitik_write_sketch(params, counts, idsums, out, length, place)
}
