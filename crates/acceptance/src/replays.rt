// Transcripts of schedules.
use crate::support::{Ran, all_files, ended, run_over, texts};
use blazor_top::run;
use outside::MemSink;
use std::alloc::Global;
use std::process::Abort;
use std::test::Fail;
use text_core::Oom;

const COUNTER: &str =
    "<p>@n</p><button @onclick=\"Add\">+</button>@code { int n = 0; void Add() { n++; } }";

const CLICK: &str = "{\"do\":\"user\",\"tab\":0,\"path\":[1],\"event\":\"onclick\"}";

/// A browser that is connected and shows the first page, and a click.
const ONE_CLICK: &str =
    "{\"steps\":[{\"do\":\"open\",\"tab\":0},{\"do\":\"flow\",\"count\":4},{\"do\":\"user\",\"tab\":0,\"path\":[1],\"event\":\"onclick\"},{\"do\":\"flow\",\"count\":10}]}";

const TRANSCRIPT: &str = "1 open 0: connection 1; sent 1
2 deliver 1: Start -> Started 1, Batch 1; sent 2 3
3 deliver 2: Opened
4 deliver 3: Applied 1 prepend=2; sent 4; page <p>0</p><button>+</button>
5 deliver 4: Ack 1 -> nothing
6 user 0 onclick 1: Event 1; sent 5
7 deliver 5: Event 1 -> Outcome 1 Acted, Batch 2; sent 6 7
8 deliver 6: Answered 1 Acted
9 deliver 7: Applied 2 text=1 in=1 out=1; sent 8; page <p>1</p><button>+</button>
10 deliver 8: Ack 2 -> nothing
done 10
";

/// The replay of a schedule over the counter.
fn replayed(alloc: Global, schedule: &str) -> Result<Ran, Oom> {
    let mut files = all_files(alloc, &[("s.json", schedule), ("Counter.razor", COUNTER)])?;
    let words = texts(alloc, &["replay", "s.json", "Counter.razor"])?;
    run_over(alloc, &words, &mut files)
}

/// A schedule of these texts: the first, one so many times, and the last.
fn schedule(
    alloc: Global,
    first: &str,
    step: &str,
    count: usize,
    last: &str,
) -> Result<String, Oom> {
    let mut text = String::new(alloc);
    text.push_str("{\"steps\":[")?;
    text.push_str(first)?;
    for _ in 0..count {
        text.push_str(step)?;
        text.push(',')?;
    }
    text.push_str(last)?;
    text.push_str("]}")?;
    Ok(text)
}

#[test]
fn tells_each_step(rt: HostRuntime) -> Result<(), Fail> {
    let ran = replayed(rt.alloc(), ONE_CLICK)?;
    ended(&rt, &ran, 0, TRANSCRIPT, "one click");
    Ok(())
}

#[test]
fn keeps_the_window(rt: HostRuntime) -> Result<(), Fail> {
    let alloc = rt.alloc();
    let text = schedule(
        alloc,
        "{\"do\":\"open\",\"tab\":0},{\"do\":\"flow\",\"count\":4},",
        CLICK,
        11,
        "{\"do\":\"flow\",\"count\":11}",
    )?;
    let ran = replayed(alloc, text.as_str())?;
    assert_eq!(rt; ran.status, 0);
    let end = "
26 deliver 14: Event 10 -> Outcome 10 Acted, Batch 11; sent 34 35
27 deliver 15: Event 11 -> Outcome 11 Acted; sent 36
done 27
";
    assert!(rt; ran.bytes.as_slice().ends_with(end.as_bytes()));
    Ok(())
}

fn are_read(rt: &impl Abort, alloc: Global, rows: &[(&str, u8, &str)]) -> Result<(), Fail> {
    for (text, status, written) in rows {
        let ran = replayed(alloc, text)?;
        ended(rt, &ran, *status, written, text);
    }
    Ok(())
}

#[test]
fn reads_schedules(rt: HostRuntime) -> Result<(), Fail> {
    let alloc = rt.alloc();
    let many = schedule(
        alloc,
        "",
        "{\"do\":\"flow\",\"count\":1000}",
        100,
        "{\"do\":\"flow\",\"count\":1000}",
    )?;
    let ran = replayed(alloc, many.as_str())?;
    ended(&rt, &ran, 8, "too large s.json\n", "many steps");
    are_read(
        &rt,
        alloc,
        &[
            ("[]", 3, "schedule unread\n"),
            ("", 3, "schedule unread\n"),
            ("{\"steps\":[{\"do\":\"jump\"}]}", 3, "schedule step 1\n"),
            (
                "{\"steps\":[{\"do\":\"flow\",\"count\":1},{\"do\":\"flow\",\"count\":0}]}",
                3,
                "schedule step 2\n",
            ),
            ("{\"steps\":[]}", 0, "done 0\n"),
            ("{\"steps\":[{\"do\":\"flow\",\"count\":5}]}", 0, "done 0\n"),
        ],
    )
}

/// The replay of one click, where this call of the sink fails.
fn cut_off(alloc: Global, failing: u64) -> Result<Ran, Oom> {
    let words = texts(alloc, &["replay", "s.json", "Counter.razor"])?;
    let mut files = all_files(alloc, &[("s.json", ONE_CLICK), ("Counter.razor", COUNTER)])?;
    let mut out = MemSink::new(alloc, [failing].to_vec(alloc)?);
    let status = run(alloc, &words, &mut files, &mut out).status;
    let bytes = out.bytes().to_vec(alloc)?;
    Ok(Ran { status, bytes })
}

#[test]
fn stops_at_the_line_that_fails(rt: HostRuntime) -> Result<(), Fail> {
    let alloc = rt.alloc();
    let first_line = "1 open 0: connection 1; sent 1\n";
    ended(&rt, &cut_off(alloc, 1)?, 6, "", "call 1");
    ended(&rt, &cut_off(alloc, 2)?, 6, first_line, "call 2");
    ended(&rt, &cut_off(alloc, 12)?, 0, TRANSCRIPT, "call 12");
    Ok(())
}
