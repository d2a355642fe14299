//! The line that gives the buses of a clock: `clk` and its settings.

ghost use Rattle.std.specs.Prelude.{◌≡◌, ◌≤◌};
ghost use Rattle.std.specs.Option.{MatchOption};
ghost use Rattle.field_decl.specs.Results.{Gives};
ghost use Rattle.bus_script.specs.SettingSteps.{ended, IsFirstSetting, nothing_given, given_after};
ghost use Rattle.bus_script.specs.Settings.{settings_of, clock_buses};

use crate::buses::Buses;
use crate::fault::{LineFault, ScriptKind};
use crate::setting::{Given, Setting};
use field_decl::Word;
use std::alloc::Global;

// The setting that stands first, and the words after it.
fn first_setting(words: &[Word]) -> Option<(Setting, &[Word])>
    ensures { MatchOption result (settings_of words.now ≡ ended words.now) (λ first. IsFirstSetting words.now first.0 first.1.now) }
{
    match words {
        [
            Word::Name(key),
            Word::Equals,
            Word::Number(value),
            rest @ ..,
        ] => {
            let setting = Setting {
                key: *key,
                value: *value,
            };
            Some((setting, rest))
        }
        _ => None,
    }
}

// The settings that the words are, if they are nothing else.
#[tactic(auto, using(crate::proofs::SettingLists::front_push))]
fn settings(alloc: Global, words: &[Word]) -> Result<Vec<Setting>, LineFault>
    ensures { Gives (λ settings. settings.items) result (settings_of words.now) }
{
    let mut settings = Vec::new(alloc);
    let mut rest = words;
    while let Some((setting, after)) = first_setting(rest) {
        settings.push(setting)?;
        rest = after;
    }
    if rest.is_empty() {
        Ok(settings)
    } else {
        Err(LineFault::Kind(ScriptKind::Shape))
    }
}

// What the settings give, from the left.
#[tactic(auto, unfolding(crate::specs::SettingSteps::given_after))]
fn given_by(slices: u8, settings: &[Setting]) -> Result<Given, ScriptKind>
    requires { slices ≤ 16 }
    ensures { result ≡ given_after slices nothing_given settings.now }
{
    let mut given = Given::nothing();
    for setting in settings {
        match given.with(slices, setting) {
            Ok(more) => given = more,
            Err(kind) => return Err(kind),
        }
    }
    Ok(given)
}

/// The buses that the words after `clk` give.
pub(crate) fn clock_buses(alloc: Global, slices: u8, words: &[Word]) -> Result<Buses, LineFault>
    requires { slices ≤ 16 }
    ensures { Gives (λ buses. buses) result (clock_buses slices words.now) }
{
    let settings = settings(alloc, words)?;
    match given_by(slices, &settings) {
        Ok(given) => Ok(given.buses()),
        Err(kind) => Err(LineFault::Kind(kind)),
    }
}
