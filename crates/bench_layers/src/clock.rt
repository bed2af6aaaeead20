//! How long calls take.

use std::time::{CpuClock, Duration, Instant};

/// Counts time since it was started.
#[derive(Clone, Copy)]
pub(crate) enum Stopwatch {
    /// By the clock.
    Clock(Instant),
    /// What this thread takes of a processor.
    Processor(Duration),
    /// The system did not tell.
    Stopped,
}

impl Stopwatch {
    pub(crate) fn by_clock(rt: &HostRuntime) -> Stopwatch {
        match Instant::now(rt) {
            Ok(now) => Stopwatch::Clock(now),
            Err(_) => Stopwatch::Stopped,
        }
    }

    pub(crate) fn by_processor(rt: &HostRuntime) -> Stopwatch {
        match rt.thread_cpu_time() {
            Ok(now) => Stopwatch::Processor(now),
            Err(_) => Stopwatch::Stopped,
        }
    }

    /// How many microseconds it counts: 0 where the system doesn't tell.
    pub(crate) fn micros(self, rt: &HostRuntime) -> u128 {
        let passed = match self {
            Stopwatch::Clock(start) => start.elapsed(rt).ok(),
            Stopwatch::Processor(start) => rt
                .thread_cpu_time()
                .ok()
                .map(|now| now.saturating_sub(start)),
            Stopwatch::Stopped => None,
        };
        passed.unwrap_or(Duration::ZERO).as_micros()
    }
}

/// How many there were a microsecond: 0 where none had passed.
pub(crate) fn in_a_microsecond(count: u64, micros: u128) -> u128 {
    u128::from(count).checked_div(micros).unwrap_or(0)
}
