use counters::{Rebuilt, rebuild};
use lw_types::Refusal;
use std::alloc::Global;

const CASES: [(Option<u32>, u16, Rebuilt); 16] = [
    (None, 0, Rebuilt::New(0)),
    (None, 16_383, Rebuilt::New(16_383)),
    (None, 16_384, Rebuilt::Gap),
    (None, 65_535, Rebuilt::Gap),
    (Some(0), 0, Rebuilt::Repeat),
    (Some(0), 16_384, Rebuilt::New(16_384)),
    (Some(0), 16_385, Rebuilt::Gap),
    (Some(16_383), 16_384, Rebuilt::New(16_384)),
    (Some(65_535), 0, Rebuilt::New(65_536)),
    (Some(65_535), 65_535, Rebuilt::Repeat),
    (Some(65_536), 65_535, Rebuilt::Gap),
    (Some(65_535), 16_383, Rebuilt::New(81_919)),
    (Some(65_535), 16_384, Rebuilt::Gap),
    (Some(4_294_967_295), 0, Rebuilt::Gap),
    (Some(4_294_967_295), 65_535, Rebuilt::Repeat),
    (Some(4_294_967_294), 65_535, Rebuilt::New(4_294_967_295)),
];

fn text_of(alloc: Global, rebuilt: Rebuilt) -> Result<String, Refusal> {
    let text = match rebuilt {
        Rebuilt::New(counter) => format!(in alloc; "{counter}")?,
        Rebuilt::Repeat => format!(in alloc; "a repeat")?,
        Rebuilt::Gap => format!(in alloc; "a gap")?,
    };
    Ok(text)
}

// The rows of the table that are wrong, one line each.
fn wrong_cases(alloc: Global) -> Result<String, Refusal> {
    let mut wrong = String::new(alloc);
    for (number, (last, low, wanted)) in CASES.iter().enumerate() {
        let got = rebuild(*last, *low);
        if got != *wanted {
            let (wanted, got) = (text_of(alloc, *wanted)?, text_of(alloc, got)?);
            let line = format!(in alloc;
                "\ncounters_tests.rt CASES {number}: wanted {wanted}, got {got}"
            )?;
            wrong.push_str(&line)?;
        }
    }
    Ok(wrong)
}

#[test]
fn counters_are_rebuilt(rt: HostRuntime) {
    let wrong = wrong_cases(rt.alloc()).expect(&rt, "memory");
    assert!(rt; wrong.is_empty(), "{wrong}");
}
