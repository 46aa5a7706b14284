// The entries of `judge`, for a terminal to call from C by terminal/judge.h: each is the function of that name, with the same contract.
#![tactic(auto)]

ghost use Rattle.std.specs.Prelude.{◌≡◌};
ghost use Rattle.wire.specs.Reading.{read_of};
ghost use Rattle.plan.specs.Answer.{rooms};
ghost use Rattle.demands.specs.Listed.{listed_of, row_room};
ghost use Rattle.answers.specs.Four.{read_numbers};
ghost use Rattle.numbers.specs.Numbers.{demands_numbers};
ghost use Rattle.answers.specs.Answered.{roomy, answered};
ghost use Rattle.runs.specs.declared.Start.TheVariants.{LogIn, MidShift};
ghost use Rattle.judge.specs.Room.{listed_row, RoundsTold, PlanTold};

#[unsafe(no_mangle)]
pub extern "C" fn judge_read(table: &[u8], answer: &mut [u64]) -> bool
    ensures { (result ≡ roomy answer.old)
        × (answer.new ≡ answered answer.old (read_numbers (read_of table.now))) }
{
    judge::judge_read(table, answer)
}

#[unsafe(no_mangle)]
pub extern "C" fn judge_rounds(table: &[u8], answer: &mut [u64]) -> bool
    ensures { (result ≡ roomy answer.old)
        × RoundsTold result table.now LogIn answer.old answer.new }
{
    judge::judge_rounds(table, answer)
}

#[unsafe(no_mangle)]
pub extern "C" fn judge_rounds_mid_shift(table: &[u8], answer: &mut [u64]) -> bool
    ensures { (result ≡ roomy answer.old)
        × RoundsTold result table.now MidShift answer.old answer.new }
{
    judge::judge_rounds_mid_shift(table, answer)
}

#[unsafe(no_mangle)]
pub extern "C" fn judge_plan(
    table: &[u8],
    k: u64,
    times: &mut [u64],
    starts: &mut [u64],
    room: &mut [u64],
    answer: &mut [u64],
) -> bool
    ensures { (result ≡ roomy answer.old)
        × PlanTold result table.now LogIn k
        (rooms times.old starts.old room.old)
        (rooms times.new starts.new room.new)
        answer.old answer.new }
{
    judge::judge_plan(table, k, times, starts, room, answer)
}

#[unsafe(no_mangle)]
pub extern "C" fn judge_plan_mid_shift(
    table: &[u8],
    k: u64,
    times: &mut [u64],
    starts: &mut [u64],
    room: &mut [u64],
    answer: &mut [u64],
) -> bool
    ensures { (result ≡ roomy answer.old)
        × PlanTold result table.now MidShift k
        (rooms times.old starts.old room.old)
        (rooms times.new starts.new room.new)
        answer.old answer.new }
{
    judge::judge_plan_mid_shift(table, k, times, starts, room, answer)
}

#[unsafe(no_mangle)]
pub extern "C" fn judge_demands(table: &[u8], k: u64, row: &mut [i64], answer: &mut [u64]) -> bool
    ensures { (result ≡ roomy answer.old)
        × (answer.new ≡ answered answer.old
        (demands_numbers (listed_of table.now LogIn k (row_room row.old))))
        × (row.new ≡ listed_row answer.old table.now LogIn k row.old) }
{
    judge::judge_demands(table, k, row, answer)
}

#[unsafe(no_mangle)]
pub extern "C" fn judge_demands_mid_shift(
    table: &[u8],
    k: u64,
    row: &mut [i64],
    answer: &mut [u64],
) -> bool
    ensures { (result ≡ roomy answer.old)
        × (answer.new ≡ answered answer.old
        (demands_numbers (listed_of table.now MidShift k (row_room row.old))))
        × (row.new ≡ listed_row answer.old table.now MidShift k row.old) }
{
    judge::judge_demands_mid_shift(table, k, row, answer)
}
