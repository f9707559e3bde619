//! Waiting until the next change gets another time than the last one had.

use crate::looks::Stamp;
use std::rt::Clock;
use std::time::Duration;
use std::{io, thread};

// Two ticks of the slowest clock of a file system, which stands still for ten milliseconds.
const TWO_TICKS_MILLIS: u64 = 20;

// How often it is waited for one stamp, where the clock is set or a sleep ends early.
const MOST_WAITS: u32 = 8;

// Waits until the times of a stamp are two ticks old: what changes it then changes its times. The
// clock of another machine may be ahead, and is not waited for.
pub(crate) fn settle<C: Clock>(clock: &C, stamp: Stamp) -> io::Result<()> {
    for _ in 0..MOST_WAITS {
        let now = clock.since_1970()?;
        let of_write = time_left(now, stamp.written);
        let of_change = time_left(now, stamp.changed);
        let left = if of_write > of_change {
            of_write
        } else {
            of_change
        };
        if left == Duration::ZERO {
            return Ok(());
        }
        thread::sleep(clock, left);
    }
    Err(io::Error::from(io::ErrorKind::TimedOut))
}

// How long until a time is two ticks old: not at all where it is, or lies ahead by as much.
fn time_left(now: Duration, time: (i64, i64)) -> Duration {
    let time = since_1970(time);
    let two_ticks = Duration::from_millis(TWO_TICKS_MILLIS);
    if time.saturating_sub(now) >= two_ticks {
        return Duration::ZERO;
    }
    time.saturating_add(two_ticks).saturating_sub(now)
}

// A time of seconds and nanoseconds, where one before 1970 is as good as 1970.
fn since_1970((seconds, nanos): (i64, i64)) -> Duration {
    let seconds = Duration::from_secs(u64::try_from(seconds).unwrap_or(0));
    seconds.saturating_add(Duration::from_nanos(u64::try_from(nanos).unwrap_or(0)))
}
