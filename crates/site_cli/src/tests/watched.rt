// What is told of a run that goes on: the time of the stream.
use super::CONFIG;
use bit_slice::OutOfMemory;
use desk_watch::RunCounts;
use plp_config::{Plan, fits, validate};
use std::alloc::Global;
use std::test::Fail;

// The bytes of the head of a record.
const HEAD: usize = 24;

fn plan_of(alloc: Global) -> Option<Plan> {
    let config = config_text::read(alloc, CONFIG.as_bytes()).ok()?;
    fits(validate(config).ok()?).ok()
}

// The time of counts, after so many bytes read and written.
fn has_time(
    alloc: Global,
    counts: &RunCounts<'_>,
    read: u64,
    written: u64,
    time: &str,
) -> Result<bool, Fail> {
    match counts.stream_time(read, written) {
        Some(seconds) => Ok(format!(in alloc; "{seconds}")?.as_str() == time),
        None => Ok(false),
    }
}

// At 2 Mbit/s a second has 250,000 bytes.
fn gateway_has_time(alloc: Global, plan: &Plan) -> Result<bool, Fail> {
    let counts = RunCounts::of_gateway(alloc, Some(plan), &[], false)?;
    has_time(alloc, &counts, 931_250_000, 1, "1:02:05")
}

fn receive_has_time(alloc: Global, plan: &Plan) -> Result<bool, Fail> {
    let counts = RunCounts::of_receive(alloc, Some(plan), 0, false, "i")?;
    has_time(alloc, &counts, 1, 15_000_000, "0:01:00")
}

// So many records are written, each a head with nothing behind it, cut in other places than they begin at.
fn of_records<'p>(alloc: Global, plan: &'p Plan, count: u64) -> Result<RunCounts<'p>, OutOfMemory> {
    let mut counts = RunCounts::of_modulate(alloc, Some(plan), "i")?;
    counts.wrote(&[0; 3]);
    for _ in 0..count {
        counts.wrote(&[0; HEAD]);
    }
    Ok(counts)
}

// A frame lasts 100,000 ticks of 7 / 64 microseconds.
fn modulate_has_time(alloc: Global, plan: &Plan) -> Result<bool, Fail> {
    let counts = of_records(alloc, plan, 9216)?;
    has_time(alloc, &counts, 1, 1, "0:01:40")
}

#[test]
fn the_time_of_the_stream_is_told(rt: HostRuntime) -> Result<(), Fail> {
    let plan = plan_of(rt.alloc());
    assert!(rt; plan.is_some());
    if let Some(plan) = plan {
        assert!(rt; gateway_has_time(rt.alloc(), &plan)?, "gateway");
        assert!(rt; receive_has_time(rt.alloc(), &plan)?, "receive");
        assert!(rt; modulate_has_time(rt.alloc(), &plan)?, "modulate");
    }
    Ok(())
}
