// Stream files and sketch files, read and written, and the head of a file, for C.
ghost use Rattle.sketch.specs.Sketch.{sketch};
ghost use Rattle.face.specs.Returned.{params_of};
ghost use Rattle.face.specs.Calls.{HeadReadFor, StreamReadFor, StreamWrittenFor, SketchReadFor, SketchWrittenFor};

use crate::returned::{params_of, return_answer, return_number, return_params};
use files::heads::head;
use sketchfile::reading::read_sketch;
use sketchfile::writing::write_sketch;
use streamfile::reading::read_stream;
use streamfile::writing::write_stream;

// Writes the parameters in the head of a file, all 0 where it is refused; what stands after the head is not looked at.
pub fn gabunlitik_read_head(bytes: &[u8], params: &mut [u32; 14], place: &mut usize) -> u32
    ensures { HeadReadFor bytes.now result place.new params.new }
{
    return_params(head(bytes), params, place)
}

// Inserts the packets of a stream file.
pub fn gabunlitik_read_stream(
    params: &[u32; 14],
    counts: &mut [i32],
    idsums: &mut [u32],
    bytes: &[u8],
    place: &mut usize,
) -> u32
    ensures { StreamReadFor (params_of params.now) bytes.now (sketch counts.old idsums.old) result place.new (sketch counts.new idsums.new) }
{
    let inserted = read_stream(params_of(params), counts, idsums, bytes);
    return_answer(&inserted, place)
}

// Writes the stream file of these flows, each by its number.
pub fn gabunlitik_write_stream(
    params: &[u32; 14],
    flows: &[u32],
    numbers: &[u32],
    out: &mut [u8],
    length: &mut usize,
    place: &mut usize,
) -> u32
    ensures { StreamWrittenFor (params_of params.now) flows.now numbers.now out.old result place.new length.new out.new }
{
    let stream = write_stream(params_of(params), flows, numbers, out);
    return_number(stream, length, place)
}

// Reads a sketch file in place of the lent sketch's content.
pub fn gabunlitik_read_sketch(
    params: &[u32; 14],
    counts: &mut [i32],
    idsums: &mut [u32],
    bytes: &[u8],
    place: &mut usize,
) -> u32
    ensures { SketchReadFor (params_of params.now) bytes.now (sketch counts.old idsums.old) result place.new (sketch counts.new idsums.new) }
{
    let replaced = read_sketch(params_of(params), counts, idsums, bytes);
    return_answer(&replaced, place)
}

// Writes the file of a sketch.
pub fn gabunlitik_write_sketch(
    params: &[u32; 14],
    counts: &[i32],
    idsums: &[u32],
    out: &mut [u8],
    length: &mut usize,
    place: &mut usize,
) -> u32
    ensures { SketchWrittenFor (params_of params.now) (sketch counts.now idsums.now) out.old result place.new length.new out.new }
{
    let stored = write_sketch(params_of(params), counts, idsums, out);
    return_number(stored, length, place)
}
