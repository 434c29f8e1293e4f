// Prints a measurement.
use crate::timing::Unmeasured;
use std::io;

/// Prints how many nanoseconds an event takes with this number of devices, or why that wasn't
/// measured.
pub fn tell(
    rt: &impl Eprint,
    name: &str,
    devices: u16,
    nanos: Result<u32, Unmeasured>,
) -> io::Result<()> {
    match nanos {
        Ok(nanos) => {
            let (micros, tenth) = (nanos / 1000, nanos / 100 % 10);
            let a_second = 1_000_000_000_u32.checked_div(nanos).unwrap_or(0);
            eprintln!(rt;
                "{name}, {devices} devices: {micros}.{tenth} microseconds, {a_second} a second"
            )
        }
        Err(why) => eprintln!(rt; "{name}, {devices} devices: {why}"),
    }
}
