// A list of calls, in order, and the law over every such list.
ghost use Rattle.std.specs.Prelude.{◌≡◌, map, MatchResult};
ghost use Rattle.requests.specs.Values.{meant, told};
ghost use Rattle.runs.specs.Laws.{Composes, RunLaw};

use crate::performing::perform;
use blocks::BlockDevice;
use requests::{Reply, Request};
use std::alloc::{AllocError, Global};
use unit::PackUnit;

// Makes the calls of a list on a unit, and gives their replies in order. Memory for the replies is had first, so where
// there is none no call is made. A loop and not `map`: a closure would have to say which unit each call found and left.
pub fn run<D: BlockDevice>(
    heap: Global,
    unit: &mut PackUnit<D>,
    requests: Vec<Request>,
) -> Result<Vec<Reply>, AllocError>
    ensures law { MatchResult result (λ replies. RunLaw unit.old.state (D.BlockDevice.meaning unit.old.device) (map meant requests.items) (map told replies.items) unit.new.state (D.BlockDevice.meaning unit.new.device)) (λ _. unit.new ≡ unit.old) }
    ensures compose { Composes }
{
    let mut replies = Vec::with_capacity(heap, requests.len())?;
    for request in requests {
        replies.push_reserved(perform(heap, unit, request));
    }
    Ok(replies)
}
