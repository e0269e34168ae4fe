// Where a flow stands in an array, for C.
ghost use Rattle.face.specs.Returned.{params_of};
ghost use Rattle.face.specs.Calls.{PositionFor, IndexFor};

use crate::returned::{params_of, return_number, wide};

// The position of a flow in an array, 0 where it is refused; arrays count from 1.
pub fn gabunlitik_position(
    params: &[u32; 14],
    array: u32,
    flow: u32,
    position: &mut usize,
    place: &mut usize,
) -> u32
    ensures { PositionFor (params_of params.now) array flow result place.new position.new }
{
    let p = params_of(params);
    let located = p.position(wide(array), flow);
    return_number(located, position, place)
}

// The index of the flow's bucket there, likewise.
pub fn gabunlitik_index(
    params: &[u32; 14],
    array: u32,
    flow: u32,
    index: &mut usize,
    place: &mut usize,
) -> u32
    ensures { IndexFor (params_of params.now) array flow result place.new index.new }
{
    let p = params_of(params);
    let located = p.index(wide(array), flow);
    return_number(located, index, place)
}
