// Bytes that spell schedules, and bytes that do not.
use schedule_replay::{ScheduleFault, Step, read_schedule};
use std::alloc::Global;
use std::process::Abort;
use std::test::Fail;
use text_core::Txt;

// Bytes, and what is wrong with them: 0 where they are no schedule at all, else the number of the first step that is none.
type Refused = (&'static str, u64);

fn fault_of(alloc: Global, text: &str) -> Option<ScheduleFault> {
    match read_schedule(alloc, text.as_bytes()) {
        Ok(_) => None,
        Err(fault) => Some(fault),
    }
}

fn expected(number: u64) -> Option<ScheduleFault> {
    if number == 0 {
        Some(ScheduleFault::Unread)
    } else {
        Some(ScheduleFault::Step { number })
    }
}

fn refuses(rt: &impl Abort, alloc: Global, table: &[Refused]) {
    for (text, number) in table {
        assert_eq!(rt; fault_of(alloc, text), expected(*number), "{text}");
    }
}

#[test]
fn what_is_no_schedule(rt: HostRuntime) -> Result<(), Fail> {
    refuses(
        &rt,
        rt.alloc(),
        &[
            ("[]", 0),
            ("", 0),
            ("{}", 0),
            ("{\"steps\":{}}", 0),
            ("{\"steps\":[],\"window\":0}", 0),
            ("{\"steps\":[],\"window\":65}", 0),
            ("{\"steps\":[],\"window\":null}", 0),
            ("{\"steps\":[],\"retain\":101}", 0),
            ("{\"steps\":[],\"retain\":1.0}", 0),
            ("{\"steps\":[],\"version\":2}", 0),
            ("{\"steps\":[1],\"window\":0}", 0),
            ("\u{feff}{\"steps\":[]}", 0),
        ],
    );
    Ok(())
}

#[test]
fn what_is_no_step(rt: HostRuntime) -> Result<(), Fail> {
    refuses(
        &rt,
        rt.alloc(),
        &[
            ("{\"steps\":[{\"do\":\"jump\"}]}", 1),
            (
                "{\"steps\":[{\"do\":\"open\",\"tab\":0},{\"do\":\"open\",\"tab\":0}]}",
                2,
            ),
            ("{\"steps\":[{\"do\":\"open\",\"tab\":1}]}", 1),
            ("{\"steps\":[{\"do\":\"open\"}]}", 1),
            ("{\"steps\":[{\"do\":\"open\",\"tab\":0,\"more\":1}]}", 1),
            (
                "{\"steps\":[{\"do\":\"flow\",\"count\":1},{\"do\":\"flow\",\"count\":0}]}",
                2,
            ),
            ("{\"steps\":[{\"do\":\"flow\",\"count\":1001}]}", 1),
            ("{\"steps\":[{\"do\":\"flow\",\"count\":-0}]}", 1),
            ("{\"steps\":[{\"do\":\"flow\",\"count\":1e1}]}", 1),
            (
                "{\"steps\":[{\"do\":\"user\",\"tab\":0,\"path\":[4294967296],\"event\":\"onclick\"}]}",
                1,
            ),
            (
                "{\"steps\":[{\"do\":\"user\",\"tab\":0,\"path\":[1],\"event\":\"onclick\",\"text\":null}]}",
                1,
            ),
            (
                "{\"steps\":[{\"do\":\"user\",\"tab\":0,\"path\":1,\"event\":\"onclick\"}]}",
                1,
            ),
            ("{\"steps\":[{\"do\":\"deliver\",\"message\":1}]}", 1),
        ],
    );
    Ok(())
}

#[test]
fn what_a_schedule_says(rt: HostRuntime) -> Result<(), Fail> {
    let alloc = rt.alloc();
    let text =
        "{\"steps\":[{\"do\":\"open\",\"tab\":900,\"tab\":0},{\"do\":\"user\",\"tab\":0,\"path\":[1,0],\"event\":\"onclick\"},{\"do\":\"flow\",\"count\":10}],\"window\":3}";
    let Ok(schedule) = read_schedule(alloc, text.as_bytes()) else {
        assert!(&rt; false, "a good schedule is refused");
        return Ok(());
    };
    assert_eq!(&rt; (schedule.window, schedule.retain), (3, 100));
    let onclick = Txt::from_str(alloc, "onclick")?;
    match schedule.steps.as_slice() {
        [
            Step::Open { tab: 0 },
            Step::User(user),
            Step::Flow { count: 10 },
        ] => {
            assert_eq!(&rt; user.path.as_slice(), [1, 0].as_slice());
            assert!(&rt; user.event == onclick);
        }
        _ => assert!(&rt; false, "other steps"),
    }
    Ok(())
}
