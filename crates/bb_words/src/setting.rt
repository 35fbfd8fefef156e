ghost use Rattle.std.specs.Prelude.{◌≡◌, ◌≢◌, IfSome, None};
ghost use Rattle.bb_words.specs.declared.setting.Setting.{Setting};
ghost use Rattle.bb_words.specs.Options.{row_of, place_of};

/// What an option sets.
#[derive(Clone, Copy, Debug, PartialEq, Eq)]
pub enum Setting {
    Width,
    MinDegree,
    MaxDegree,
    MaxCycles,
    Register,
}

/// The numbers that an option takes, and the one that holds without it.
#[derive(Clone, Copy, Debug)]
pub struct Range {
    pub least: u64,
    pub most: u64,
    pub default: u64,
}

impl Setting {
    /// The setting of the option `--name`.
    pub fn named(name: &str) -> Option<Setting>
        ensures found { IfSome result (λ setting. name.now ≡ (row_of setting).name) }
        ensures none { result ≡ None → (setting : Setting) → name.now ≢ (row_of setting).name }
    {
        match name {
            "width" => Some(Setting::Width),
            "min-degree" => Some(Setting::MinDegree),
            "max-degree" => Some(Setting::MaxDegree),
            "max-cycles" => Some(Setting::MaxCycles),
            "register" => Some(Setting::Register),
            _ => None,
        }
    }

    pub fn range(self) -> Range
        ensures least { result.least ≡ (row_of self).least }
        ensures most { result.most ≡ (row_of self).most }
        ensures default { result.default ≡ (row_of self).default }
    {
        let (least, most, default) = match self {
            Setting::Width => (2, 12, 8),
            Setting::MinDegree => (1, 20, 1),
            Setting::MaxDegree => (1, 20, 16),
            Setting::MaxCycles => (1, 1_099_511_627_776, 16_777_216),
            Setting::Register => (1, 16, 8),
        };
        Range {
            least,
            most,
            default,
        }
    }

    /// Its place among the settings.
    pub fn place(self) -> usize
        ensures { result ≡ place_of self }
    {
        match self {
            Setting::Width => 0,
            Setting::MinDegree => 1,
            Setting::MaxDegree => 2,
            Setting::MaxCycles => 3,
            Setting::Register => 4,
        }
    }
}
