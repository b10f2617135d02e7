ghost use Rattle.std.specs.Prelude.{◌≡◌, MatchOption};
ghost use Rattle.vx_base.specs.Options.{is_register_length, is_lane_count, is_bank_count};
ghost use Rattle.vx_words.specs.Words.{OptionName, row_of, is_option_of};
ghost use Rattle.vx_read.specs.Settings.{option_of, IsRow};

use vx_words::ImageJob;

/// An option of the command line. Each takes a number.
#[derive(Clone, Copy, PartialEq, Eq, Debug)]
pub enum Setting {
    Vlen,
    Window,
    Lanes,
    Banks,
    BankTime,
    Frames,
    Budget,
}

/// The options.
const SETTINGS: [Setting; 7] = [
    Setting::Vlen,
    Setting::Window,
    Setting::Lanes,
    Setting::Banks,
    Setting::BankTime,
    Setting::Frames,
    Setting::Budget,
];

/// An option's word, and the least and the greatest number that it takes.
#[derive(Clone, Copy)]
pub struct Row {
    pub word: &'static str,
    pub least: u64,
    pub greatest: u64,
}

/// Whether a vector register may have so many bits.
fn is_register_length(bits: u64) -> bool
    ensures { result ≡ is_register_length bits }
{
    bits == 128 || bits == 256 || bits == 512 || bits == 1024 || bits == 2048
}

/// Whether there may be so many lanes.
fn is_lane_count(lanes: u64) -> bool
    ensures { result ≡ is_lane_count lanes }
{
    lanes == 1 || lanes == 2 || lanes == 4 || lanes == 8
}

/// Whether there may be so many banks.
fn is_bank_count(banks: u64) -> bool
    ensures { result ≡ is_bank_count banks }
{
    banks == 1 || banks == 2 || banks == 4 || banks == 8 || banks == 16
}

impl Setting {
    /// The option's row.
    pub fn row(self) -> Row
        ensures { IsRow (option_of self) result }
    {
        match self {
            Setting::Vlen => Row {
                word: "--vlen",
                least: 128,
                greatest: 2048,
            },
            Setting::Window => Row {
                word: "--window",
                least: 1,
                greatest: 1,
            },
            Setting::Lanes => Row {
                word: "--lanes",
                least: 1,
                greatest: 8,
            },
            Setting::Banks => Row {
                word: "--banks",
                least: 1,
                greatest: 16,
            },
            Setting::BankTime => Row {
                word: "--bank-time",
                least: 1,
                greatest: 16,
            },
            Setting::Frames => Row {
                word: "--frames",
                least: 16,
                greatest: 16384,
            },
            Setting::Budget => Row {
                word: "--budget",
                least: 1,
                greatest: 1 << 40,
            },
        }
    }

    /// Whether the option takes this number, of those from the least to the greatest.
    pub fn takes(self, number: u64) -> bool
        ensures { result ≡ (row_of (option_of self)).takes number }
    {
        match self {
            Setting::Vlen => is_register_length(number),
            Setting::Lanes => is_lane_count(number),
            Setting::Banks => is_bank_count(number),
            Setting::Window | Setting::BankTime | Setting::Frames | Setting::Budget => true,
        }
    }

    /// Whether the option may be given for the job.
    pub fn is_for(self, job: ImageJob) -> bool
        ensures { result ≡ is_option_of job (option_of self) }
    {
        match job {
            ImageJob::Run => true,
            ImageJob::Alone => match self {
                Setting::Vlen | Setting::Budget => true,
                Setting::Window | Setting::Lanes => false,
                Setting::Banks | Setting::BankTime | Setting::Frames => false,
            },
        }
    }

    /// The option whose word this is.
    pub fn named(word: &str) -> Option<Setting>
        ensures { MatchOption result ((option : OptionName) → word.now ≡ (row_of option).word → ⊥) (λ setting. word.now ≡ (row_of (option_of setting)).word) }
    {
        for setting in SETTINGS {
            if setting.row().word == word {
                return Some(setting);
            }
        }
        None
    }
}
