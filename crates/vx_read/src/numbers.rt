ghost use Rattle.std.specs.Prelude.{◌≡◌, ◌≤◌, Option, Some, None, is_some, if◌then◌else◌};
ghost use Rattle.vx_words.specs.Words.{OptionName, row_of, is_same};
ghost use Rattle.vx_read.specs.Settings.{option_of};
ghost use Rattle.vx_read.specs.Images.{image_of};
ghost use Rattle.vx_read.specs.Numbers.{number_in, nothing, IsRunOf};

use crate::image_word::ImageWord;
use crate::run_words::RunWords;
use crate::settings::Setting;

/// The numbers that options were given so far.
#[derive(Clone, Copy)]
pub struct Numbers {
    pub vlen: Option<u32>,
    pub window: Option<u32>,
    pub lanes: Option<u32>,
    pub banks: Option<u32>,
    pub bank_time: Option<u32>,
    pub frames: Option<u32>,
    pub budget: Option<u64>,
}

impl Numbers {
    /// No option was given a number.
    pub fn none() -> Numbers
        ensures { result ≡ nothing }
    {
        Numbers {
            vlen: None,
            window: None,
            lanes: None,
            banks: None,
            bank_time: None,
            frames: None,
            budget: None,
        }
    }

    /// Whether the option was given a number.
    pub fn has(&self, setting: Setting) -> bool
        ensures { result ≡ is_some (number_in (option_of setting) self.now) }
    {
        match setting {
            Setting::Vlen => self.vlen.is_some(),
            Setting::Window => self.window.is_some(),
            Setting::Lanes => self.lanes.is_some(),
            Setting::Banks => self.banks.is_some(),
            Setting::BankTime => self.bank_time.is_some(),
            Setting::Frames => self.frames.is_some(),
            Setting::Budget => self.budget.is_some(),
        }
    }

    /// These numbers, and this one for the option.
    pub fn with(self, setting: Setting, number: u64) -> Numbers
        requires { number ≤ (row_of (option_of setting)).greatest }
        ensures { (option : OptionName) → number_in option result ≡ (if is_same (option_of setting) option then Some number else number_in option self) }
    {
        match setting {
            Setting::Vlen => Numbers {
                vlen: Some(number as u32),
                ..self
            },
            Setting::Window => Numbers {
                window: Some(number as u32),
                ..self
            },
            Setting::Lanes => Numbers {
                lanes: Some(number as u32),
                ..self
            },
            Setting::Banks => Numbers {
                banks: Some(number as u32),
                ..self
            },
            Setting::BankTime => Numbers {
                bank_time: Some(number as u32),
                ..self
            },
            Setting::Frames => Numbers {
                frames: Some(number as u32),
                ..self
            },
            Setting::Budget => Numbers {
                budget: Some(number),
                ..self
            },
        }
    }

    /// The words of a command with these numbers and this image.
    pub fn run_of<'a>(self, image: ImageWord<'a>) -> RunWords<'a>
        ensures { IsRunOf self (image_of image.entry) result }
    {
        RunWords {
            vlen: self.vlen,
            window: self.window,
            lanes: self.lanes,
            banks: self.banks,
            bank_time: self.bank_time,
            frames: self.frames,
            budget: self.budget,
            image,
        }
    }
}
