// One call, given as a value.
ghost use Rattle.std.specs.Prelude.{◌≡◌};
ghost use Rattle.requests.specs.Values.{meant, told};
ghost use Rattle.unit.specs.Calls.{done as done_reply, number as number_reply};
ghost use Rattle.runs.specs.Performed.{Performed};

use blocks::BlockDevice;
use refusal::Refusal;
use requests::{Reply, Request};
use std::alloc::Global;
use unit::PackUnit;

// The reply to a call that replies no number.
fn done(heap: Global, answer: Result<(), Refusal>) -> Reply
    ensures { told result ≡ done_reply answer }
{
    Reply {
        answer: answer.map(|()| None),
        buffer: Vec::new(heap),
    }
}

// The reply to a call that replies a number and has a buffer.
fn numbered(answer: Result<u32, Refusal>, buffer: Vec<u8>) -> Reply
    ensures { told result ≡ number_reply answer buffer.items }
{
    Reply {
        answer: answer.map(Some),
        buffer,
    }
}

// Makes a call on a unit.
pub fn perform<D: BlockDevice>(heap: Global, unit: &mut PackUnit<D>, request: Request) -> Reply
    ensures { Performed unit.old.state (D.BlockDevice.meaning unit.old.device) (meant request) (told result) unit.new.state (D.BlockDevice.meaning unit.new.device) }
{
    match request {
        Request::SetDate { year, month, day } => done(heap, unit.set_date(year, month, day)),
        Request::Initialise {
            name,
            directory,
            blocks,
            mut work,
        } => done(
            heap,
            unit.initialise(name.as_slice(), directory, blocks, work.as_mut_slice()),
        ),
        Request::TakeUp { mut work } => done(heap, unit.take_up(work.as_mut_slice())),
        Request::Find {
            kind,
            name,
            mut buffer,
            mut work,
        } => {
            let answer = unit.find(
                kind,
                name.as_slice(),
                buffer.as_mut_slice(),
                work.as_mut_slice(),
            );
            numbered(answer, buffer)
        }
        Request::Show {
            entry,
            mut buffer,
            mut work,
        } => {
            let answer = unit.show(entry, buffer.as_mut_slice(), work.as_mut_slice());
            numbered(answer, buffer)
        }
    }
}
