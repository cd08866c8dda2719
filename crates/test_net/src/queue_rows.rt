//! Messages that wait in channels.
use asset_wire::Version;
use chain_ids::ChainId;
use chain_queues::{Cargo, Channel, PushFault, Queues};
use std::alloc::{AllocError, Global};
use std::test::Fail;
use versioned_xcm::decode_message;

/// The message of ClearOrigin alone, in version 4.
const CLEARS: [u8; 3] = [4, 4, 10];

/// The message of ClearOrigin alone, in version 3.
const CLEARS_IN_3: [u8; 3] = [3, 4, 10];

/// The message of ClearOrigin twice.
const CLEARS_TWICE: [u8; 4] = [4, 8, 10, 10];

/// What a step asks of the channels.
#[derive(Clone, Copy)]
enum Step {
    Push(ChainId, &'static [u8]),
    Pop(ChainId),
}

/// What it is answered.
#[derive(Clone, Copy, Debug, PartialEq, Eq)]
enum Answer {
    Number(u64),
    Refused(PushFault),
    Oldest(u64),
    Nothing,
}

fn channel(to: ChainId, capacity: u32, max_size: u32) -> Channel {
    Channel {
        to,
        version: Version::V4,
        capacity,
        max_size,
        fee: None,
    }
}

/// Pushes a message, which must decode and be of the channel's version.
fn pushed(
    alloc: Global,
    queues: &mut Queues,
    to: ChainId,
    bytes: &[u8],
) -> Result<Answer, AllocError> {
    let message = Vec::from_slice(alloc, bytes)?;
    if decode_message(alloc, message.as_slice()).is_err() {
        return Ok(Answer::Nothing);
    }
    if !queues.is_spelled_for(to, message.as_slice()) {
        return Ok(Answer::Nothing);
    }
    match queues.push(to, message, Cargo::Nothing) {
        Ok(number) => Ok(Answer::Number(number)),
        Err((_, fault)) => Ok(Answer::Refused(fault)),
    }
}

fn answered(alloc: Global, queues: &mut Queues, step: Step) -> Result<Answer, AllocError> {
    match step {
        Step::Push(to, bytes) => pushed(alloc, queues, to, bytes),
        Step::Pop(from) => match queues.pop(from) {
            Some(queued) => Ok(Answer::Oldest(queued.number)),
            None => Ok(Answer::Nothing),
        },
    }
}

#[test]
fn messages_wait_in_order(rt: HostRuntime) -> Result<(), Fail> {
    let alloc = rt.alloc();
    let near = ChainId::Para(1000);
    let far = ChainId::Para(2000);
    let list = vec![in alloc;
        channel(near, 2, 3),
        channel(far, 1, 65_536),
        channel(near, 5, 65_536),
    ]?;
    let mut queues = Queues::open(alloc, list)?;
    for (step, answer) in [
        (Step::Pop(near), Answer::Nothing),
        (Step::Push(near, &CLEARS), Answer::Number(1)),
        (Step::Push(near, &CLEARS), Answer::Number(2)),
        (Step::Push(near, &CLEARS), Answer::Refused(PushFault::Full)),
        (
            Step::Push(near, &CLEARS_TWICE),
            Answer::Refused(PushFault::TooLarge),
        ),
        (
            Step::Push(ChainId::Relay, &CLEARS),
            Answer::Refused(PushFault::NoChannel),
        ),
        (Step::Push(far, &CLEARS_TWICE), Answer::Number(1)),
        (Step::Pop(near), Answer::Oldest(1)),
        (Step::Push(near, &CLEARS), Answer::Number(3)),
        (Step::Pop(near), Answer::Oldest(2)),
        (Step::Pop(near), Answer::Oldest(3)),
        (Step::Pop(near), Answer::Nothing),
        (Step::Pop(ChainId::Relay), Answer::Nothing),
    ] {
        assert_eq!(rt; answered(alloc, &mut queues, step)?, answer);
    }
    Ok(())
}

#[test]
fn channels_stand_in_listed_order(rt: HostRuntime) -> Result<(), Fail> {
    let alloc = rt.alloc();
    let near = ChainId::Para(1000);
    let list = vec![in alloc; channel(ChainId::Relay, 1, 4), channel(near, 3, 3)]?;
    let mut queues = Queues::open(alloc, list)?;
    assert_eq!(rt;
        pushed(alloc, &mut queues, near, &CLEARS)?,
        Answer::Number(1)
    );
    assert_eq!(rt; queues.check(near, 3), Ok(()));
    assert!(rt; !queues.is_spelled_for(near, &CLEARS_IN_3));
    assert!(rt; queues.is_spelled_for(ChainId::Para(1), &CLEARS_IN_3));
    assert_eq!(rt; queues.check(near, 4), Err(PushFault::TooLarge));
    for (queue, (to, next, waiting)) in queues
        .channels()
        .iter()
        .zip([(ChainId::Relay, 1, 0), (near, 2, 1)])
    {
        assert_eq!(rt;
            (queue.channel.to, queue.next, queue.waiting.len()),
            (to, next, waiting)
        );
        assert!(rt; !queue.is_full());
    }
    assert!(rt; queues.messages(ChainId::Para(1)).is_none());
    for message in queues.messages(near) {
        assert_eq!(rt; message.len(), 1);
    }
    Ok(())
}
