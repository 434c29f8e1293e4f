// A core's answers to events, one after another.
mod commands;
mod core_script;
mod limits;
mod windows;

use crate::session_core_tests::core_script::{Step, wrong_steps};
use lw_types::Refusal;
use session_core::Moment;
use std::alloc::Global;

// The scripts, each with its file and name. (If a test named them all, its proof would have every
// step in it; a test that calls this function has none.)
fn script(number: u8) -> (&'static str, &'static [Step]) {
    match number {
        0 => ("commands.rt TURNS", commands::TURNS),
        1 => ("commands.rt DUE", commands::DUE),
        2 => ("commands.rt TAKEN", commands::TAKEN),
        3 => ("limits.rt OUTCOMES", limits::OUTCOMES),
        4 => ("limits.rt WINDOWS", limits::WINDOWS),
        5 => ("limits.rt WAITING", limits::WAITING),
        6 => ("limits.rt NUMBERS", limits::NUMBERS),
        _ => ("windows.rt MOMENTS", windows::MOMENTS),
    }
}

fn wrong_scripts(alloc: Global) -> Result<String, Refusal> {
    let mut wrong = String::new(alloc);
    for number in 0..8 {
        let (name, steps) = script(number);
        wrong.push_str(&wrong_steps(alloc, name, steps)?)?;
    }
    Ok(wrong)
}

#[test]
fn a_core_answers_events_one_after_another(rt: HostRuntime) {
    let wrong = wrong_scripts(rt.alloc()).expect(&rt, "scripts");
    assert!(rt; wrong.is_empty(), "{wrong}");
}

#[test]
fn moments_end(rt: HostRuntime) {
    assert!(rt; Moment::new(1 << 63).is_none());
}
