// Lines of replies.
use console::reply_line;
use refusal::Refusal;
use requests::Reply;
use std::alloc::Global;
use std::process::Abort;
use std::test::Fail;

fn prints(
    rt: &impl Abort,
    heap: Global,
    answer: Result<Option<u32>, Refusal>,
    buffer: &[u8],
    line: &str,
) -> Result<(), Fail> {
    let buffer = Vec::from_slice(heap, buffer)?;
    let reply = Reply { answer, buffer };
    assert!(rt; reply_line(heap, &reply)?.as_str() == line);
    Ok(())
}

#[test]
fn done(rt: HostRuntime) -> Result<(), Fail> {
    let heap = rt.alloc();
    prints(&rt, heap, Ok(None), &[], "ok")?;
    prints(&rt, heap, Ok(None), &[1, 2], "ok")?;
    prints(&rt, heap, Ok(Some(0)), &[], "ok 0")?;
    prints(&rt, heap, Ok(Some(4294967295)), &[], "ok 4294967295")?;
    prints(&rt, heap, Ok(Some(7)), &[0], "ok 7 00")?;
    prints(
        &rt,
        heap,
        Ok(Some(3)),
        &[0x00, 0x09, 0x0a, 0x9f, 0xa0, 0xff],
        "ok 3 00090A9FA0FF",
    )
}

#[test]
fn refused(rt: HostRuntime) -> Result<(), Fail> {
    let heap = rt.alloc();
    for (refusal, line) in [
        (Refusal::OutOfRange, "refused 17 0 0"),
        (Refusal::BadName, "refused 14 0 0"),
        (Refusal::NoSuchFile, "refused 5 0 0"),
        (Refusal::NoPack, "refused 24 0 0"),
        (Refusal::BrokenLayout { entry: 8 }, "refused 24 1 8"),
        (
            Refusal::BadBlock {
                depth: 255,
                place: 65535,
            },
            "refused 22 257 65535",
        ),
        (Refusal::WriteProtected { depth: 1 }, "refused 32 3 0"),
    ] {
        prints(&rt, heap, Err(refusal), &[], line)?;
        prints(&rt, heap, Err(refusal), &[1, 2, 3], line)?;
    }
    Ok(())
}
