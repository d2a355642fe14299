//! Settings of a clock line, and what they give so far.

ghost use Rattle.std.specs.Prelude.{◌≡◌, ◌≤◌, ◌^◌};
ghost use Rattle.bus_script.specs.SettingSteps.{fresh_value, nothing_given, with_setting, buses_from};

use crate::buses::Buses;
use crate::fault::ScriptKind;
use field_decl::Name;

/// `KEY = NUMBER` as it stands; neither is judged yet.
#[derive(Clone, Copy)]
pub(crate) struct Setting {
    /// The name before `=`.
    pub(crate) key: Name,
    /// The number behind it.
    pub(crate) value: u128,
}

/// The value of each key that was given in a line so far.
#[derive(Clone, Copy)]
pub(crate) struct Given {
    m: Option<u32>,
    i: Option<u32>,
    px: Option<u8>,
    sx: Option<u8>,
}

/// One more than the greatest word of an array of this many slices.
#[tactic(auto, using(crate::proofs::WordLimit::limit_fits))]
pub(crate) fn word_limit(slices: u8) -> u128
    requires { slices ≤ 16 }
    ensures limit { result ≡ 4 ^ slices }
    ensures fits { result ≤ 2 ^ 32 }
{
    4u128.pow(slices as u32)
}

// The value of a key that stands for a word.
fn fresh_word(given: Option<u32>, slices: u8, value: u128) -> Result<u32, ScriptKind>
    requires { slices ≤ 16 }
    ensures { result ≡ fresh_value given (4 ^ slices) value }
{
    if given.is_some() {
        Err(ScriptKind::Twice)
    } else if value >= word_limit(slices) {
        Err(ScriptKind::Value)
    } else {
        Ok(value as u32)
    }
}

// The value of a key that stands for four inputs of the 3001.
fn fresh_inputs(given: Option<u8>, value: u128) -> Result<u8, ScriptKind>
    ensures { result ≡ fresh_value given 16 value }
{
    if given.is_some() {
        Err(ScriptKind::Twice)
    } else if value > 15 {
        Err(ScriptKind::Value)
    } else {
        Ok(value as u8)
    }
}

impl Given {
    /// No key was given.
    pub(crate) fn nothing() -> Given
        ensures { result ≡ nothing_given }
    {
        Given {
            m: None,
            i: None,
            px: None,
            sx: None,
        }
    }

    /// What is given with a setting more.
    #[tactic(auto, unfolding(crate::specs::SettingSteps::with_setting))]
    pub(crate) fn with(self, slices: u8, setting: &Setting) -> Result<Given, ScriptKind>
        requires { slices ≤ 16 }
        ensures { result ≡ with_setting slices self setting.now }
    {
        if setting.key.is(b"m") {
            fresh_word(self.m, slices, setting.value).map(|m| Given { m: Some(m), ..self })
        } else if setting.key.is(b"i") {
            fresh_word(self.i, slices, setting.value).map(|i| Given { i: Some(i), ..self })
        } else if setting.key.is(b"px") {
            fresh_inputs(self.px, setting.value).map(|px| Given {
                px: Some(px),
                ..self
            })
        } else if setting.key.is(b"sx") {
            fresh_inputs(self.sx, setting.value).map(|sx| Given {
                sx: Some(sx),
                ..self
            })
        } else {
            Err(ScriptKind::Key)
        }
    }

    /// The buses of the line, with 0 for each key that is not given, and the memory for `m`.
    pub(crate) fn buses(self) -> Buses
        ensures { result ≡ buses_from self }
    {
        Buses {
            m: self.m,
            i: self.i.unwrap_or(0),
            px: self.px.unwrap_or(0),
            sx: self.sx.unwrap_or(0),
        }
    }
}
