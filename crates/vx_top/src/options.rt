ghost use Rattle.std.specs.Prelude.{◌≡◌, ◌≤◌, ◌^◌, true, IfSome, IsTrue, unwrap_or};
ghost use Rattle.vx_base.specs.Options.{is_bank_count, is_lane_count, is_register_length};
ghost use Rattle.vx_read.specs.Read.{AreInRange};
ghost use Rattle.vx_words.specs.Words.{every};

use vx_base::Options;
use vx_read::RunWords;

/// The number of an option that takes 1 alone.
fn one(given: Option<u32>) -> u32
    requires { IfSome given (λ n. (1 ≤ n) × (n ≤ 1) × (every n ≡ true)) }
    ensures value { result ≡ unwrap_or given 1 }
    ensures one { result ≡ 1 }
{
    match given {
        Some(number) => number,
        None => 1,
    }
}

/// The lanes.
fn lanes(given: Option<u32>) -> u32
    requires { IfSome given (λ n. (1 ≤ n) × (n ≤ 8) × (is_lane_count n ≡ true)) }
    ensures value { result ≡ unwrap_or given 4 }
    ensures in_range { IsTrue (is_lane_count result) }
{
    match given {
        Some(number) => number,
        None => 4,
    }
}

/// The memory banks.
fn banks(given: Option<u32>) -> u32
    requires { IfSome given (λ n. (1 ≤ n) × (n ≤ 16) × (is_bank_count n ≡ true)) }
    ensures value { result ≡ unwrap_or given 8 }
    ensures in_range { IsTrue (is_bank_count result) }
{
    match given {
        Some(number) => number,
        None => 8,
    }
}

/// The cycles for which an access holds its bank.
fn bank_time(given: Option<u32>) -> u32
    requires { IfSome given (λ n. (1 ≤ n) × (n ≤ 16) × (every n ≡ true)) }
    ensures value { result ≡ unwrap_or given 4 }
    ensures positive { 1 ≤ result }
    ensures in_range { result ≤ 16 }
{
    match given {
        Some(cycles) => cycles,
        None => 4,
    }
}

/// The frames of physical memory.
pub fn frames(given: Option<u32>) -> u32
    requires { IfSome given (λ n. (16 ≤ n) × (n ≤ 16384) × (every n ≡ true)) }
    ensures value { result ≡ unwrap_or given 4096 }
    ensures enough { 16 ≤ result }
    ensures in_range { result ≤ 16384 }
{
    match given {
        Some(count) => count,
        None => 4096,
    }
}

/// The bits of a vector register.
fn vlen(given: Option<u32>) -> u32
    requires { IfSome given (λ n. (128 ≤ n) × (n ≤ 2048) × (is_register_length n ≡ true)) }
    ensures value { result ≡ unwrap_or given 256 }
    ensures in_range { IsTrue (is_register_length result) }
{
    match given {
        Some(bits) => bits,
        None => 256,
    }
}

/// The budget, in cycles or instructions.
fn budget(given: Option<u64>) -> u64
    requires { IfSome given (λ n. (1 ≤ n) × (n ≤ 2 ^ 40) × (every n ≡ true)) }
    ensures value { result ≡ unwrap_or given 1000000000 }
    ensures positive { 1 ≤ result }
    ensures in_range { result ≤ 2 ^ 40 }
{
    match given {
        Some(limit) => limit,
        None => 1_000_000_000,
    }
}

/// The options that the words of a command ask for; one that they don't give has its default.
pub fn options_for(run: &RunWords) -> Options
    requires in_range { AreInRange run.now }
    ensures vlen { result.vlen ≡ unwrap_or run.now.vlen 256 }
    ensures lanes { result.lanes ≡ unwrap_or run.now.lanes 4 }
    ensures banks { result.banks ≡ unwrap_or run.now.banks 8 }
    ensures bank_time { result.bank_time ≡ unwrap_or run.now.bank_time 4 }
    ensures window { result.window ≡ unwrap_or run.now.window 1 }
    ensures slice { result.slice ≡ 10000 }
    ensures frames { result.frames ≡ unwrap_or run.now.frames 4096 }
    ensures slots { result.slots ≡ 8192 }
    ensures budget { result.budget ≡ unwrap_or run.now.budget 1000000000 }
    ensures alone { result.window ≡ 1 }
{
    let mut options = Options::new();
    options.vlen = vlen(run.vlen);
    options.window = one(run.window);
    options.lanes = lanes(run.lanes);
    options.banks = banks(run.banks);
    options.bank_time = bank_time(run.bank_time);
    options.frames = frames(run.frames);
    options.budget = budget(run.budget);
    options
}
