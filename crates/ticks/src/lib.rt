// Ticks that the rail's counter has gone on by, and what they make of a clock's reading.
#![tactic(auto)]

ghost use Rattle.std.specs.Prelude.{◌≡◌, ℕ, ◌+◌, ◌%◌, ◌<◌};
ghost use Rattle.ticks.specs.Ticks.{elapsed_of, later_of};

// The ticks from one counter to another on their circle. Whenever fewer than 65,536 ticks have passed, it is just their number.
pub fn elapsed(last: u16, counter: u16) -> u16
    ensures is { result ≡ elapsed_of last counter }
    ensures passed { (e : ℕ) → e < 65536 → counter ≡ (last + e) % 65536 → result ≡ e }
{
    counter.wrapping_sub(last)
}

// A reading some ticks later.
pub fn later(reading: u16, ticks: u16) -> u16
    ensures { result ≡ later_of reading ticks }
{
    (reading as u32 + ticks as u32).min(4001) as u16
}
