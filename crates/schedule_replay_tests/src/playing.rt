// The lines of schedules, over the counter.
use counter_stage::{CounterScreen, CounterStage};
use schedule_replay::{read_schedule, replay};
use std::alloc::Global;
use std::process::Abort;
use std::test::Fail;
use text_core::{Oom, Txt};

// The first number that the counter shows, a schedule, and its lines.
type Played = (u8, &'static str, &'static [&'static str]);

fn lines_of(rt: &impl Abort, alloc: Global, number: u8, text: &str) -> Result<Vec<Txt>, Oom> {
    let Ok(schedule) = read_schedule(alloc, text.as_bytes()) else {
        assert!(rt; false, "{text} is no schedule");
        return Err(Oom);
    };
    let stage = CounterStage::new(alloc, number);
    replay(alloc, stage, CounterScreen::new(), &schedule)
}

fn plays(rt: &impl Abort, alloc: Global, table: &[Played]) -> Result<(), Oom> {
    for (number, text, expected) in table {
        let lines = lines_of(rt, alloc, *number, text)?;
        assert_eq!(rt; lines.len(), expected.len(), "{text}");
        for (line, wanted) in lines.iter().zip(expected.iter()) {
            assert_eq!(rt; line.as_str(), *wanted, "{text}");
        }
    }
    Ok(())
}

const TABLE: &[Played] = &[
    (0, r#"{"steps":[]}"#, &["done 0"]),
    (
        0,
        r#"{"steps":[{"do":"flow","count":5},{"do":"user","tab":0,"path":[0],"event":"onclick"}]}"#,
        &["1 user 0 onclick 0: NoNode", "done 1"],
    ),
    (
        7,
        r#"{"steps":[{"do":"open","tab":0},{"do":"flow","count":4},{"do":"user","tab":0,"path":[0],"event":"onclick"},
                {"do":"flow","count":10}]}"#,
        &[
            "1 open 0: connection 1; sent 1",
            "2 deliver 1: Start -> Started 1, Batch 1; sent 2 3",
            "3 deliver 2: Opened",
            "4 deliver 3: Applied 1 prepend=1; sent 4; page <button>7</button>",
            "5 deliver 4: Ack 1 -> nothing",
            "6 user 0 onclick 0: Event 1; sent 5",
            "7 deliver 5: Event 1 -> Outcome 1 Acted, Batch 2; sent 6 7",
            "8 deliver 6: Answered 1 Acted",
            "9 deliver 7: Applied 2 text=1 in=1 out=1; sent 8; page <button>8</button>",
            "10 deliver 8: Ack 2 -> nothing",
            "done 10",
        ],
    ),
    (
        255,
        r#"{"steps":[{"do":"open","tab":0},{"do":"flow","count":4},{"do":"user","tab":0,"path":[0,1],"event":""},
                {"do":"user","tab":0,"path":[0],"event":"a\nb\\"},{"do":"user","tab":0,"path":[],"event":"onclick"},
                {"do":"user","tab":0,"path":[0],"event":"onclick"},{"do":"flow","count":2},
                {"do":"user","tab":0,"path":[0],"event":"onclick"}]}"#,
        &[
            "1 open 0: connection 1; sent 1",
            "2 deliver 1: Start -> Started 1, Batch 1; sent 2 3",
            "3 deliver 2: Opened",
            "4 deliver 3: Applied 1 prepend=1; sent 4; page <button>255</button>",
            "5 deliver 4: Ack 1 -> nothing",
            "6 user 0  0.1: NoNode",
            "7 user 0 a\\nb\\\\ 0: NoHandler",
            "8 user 0 onclick -: NoNode",
            "9 user 0 onclick 0: Event 1; sent 5",
            "10 deliver 5: Event 1 -> Ended Overflow; sent 6",
            "11 deliver 6: Ended Overflow",
            "12 user 0 onclick 0: Over",
            "done 12",
        ],
    ),
];

#[test]
fn what_schedules_play(rt: HostRuntime) -> Result<(), Fail> {
    Ok(plays(&rt, rt.alloc(), TABLE)?)
}
