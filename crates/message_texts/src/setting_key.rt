//! The keys of a file of settings, and which values they take.

ghost use Rattle.std.specs.Prelude.{◌≡◌, ◌≢◌, IfNone, IfSome};
ghost use Rattle.message_texts.specs.Keys.{key_name};

/// A key of a file of settings.
#[derive(Clone, Copy, Debug, PartialEq, Eq)]
pub enum SettingKey {
    Types,
    Near,
    Junction,
    Station,
    Importance,
    Cell,
    Spread,
    Coarsest,
    Finest,
    Straight,
    Moves,
    Search,
    Proof,
    Budget,
    Method,
}

/// All keys.
pub const SETTING_KEYS: [SettingKey; 15] = [
    SettingKey::Types,
    SettingKey::Near,
    SettingKey::Junction,
    SettingKey::Station,
    SettingKey::Importance,
    SettingKey::Cell,
    SettingKey::Spread,
    SettingKey::Coarsest,
    SettingKey::Finest,
    SettingKey::Straight,
    SettingKey::Moves,
    SettingKey::Search,
    SettingKey::Proof,
    SettingKey::Budget,
    SettingKey::Method,
];

impl SettingKey {
    /// The key as it is written.
    pub fn name(self) -> &'static str
        ensures { result.now ≡ key_name self }
    {
        match self {
            SettingKey::Types => "types",
            SettingKey::Near => "near",
            SettingKey::Junction => "junction",
            SettingKey::Station => "station",
            SettingKey::Importance => "importance",
            SettingKey::Cell => "cell",
            SettingKey::Spread => "spread",
            SettingKey::Coarsest => "coarsest",
            SettingKey::Finest => "finest",
            SettingKey::Straight => "straight",
            SettingKey::Moves => "moves",
            SettingKey::Search => "search",
            SettingKey::Proof => "proof",
            SettingKey::Budget => "budget",
            SettingKey::Method => "method",
        }
    }

    /// The key that is written so, if there is one.
    pub fn named(text: &str) -> Option<SettingKey>
        ensures some { IfSome result (λ key. key_name key ≡ text.now) }
        ensures none { IfNone result ((key : SettingKey) → key_name key ≢ text.now) }
    {
        for key in SETTING_KEYS {
            if key.name() == text {
                return Some(key);
            }
        }
        None
    }

    /// What its value has to be.
    pub fn due(self) -> &'static str {
        match self {
            SettingKey::Types => {
                "a list of at most 100 route types, each a whole number from 0 to 4294967295"
            }
            SettingKey::Near => "a whole number of decimetres from 20 to 20000",
            SettingKey::Junction | SettingKey::Station => {
                "three whole numbers from 0 to 1000, of a crossing, a split and a separation: [4, 1, 3]"
            }
            SettingKey::Importance => {
                "at most 1000 route ids, each with a whole number from 1 to 16: { U1 = 4 }"
            }
            SettingKey::Cell => "0, or a whole number of decimetres from 10 to 1000000",
            SettingKey::Spread => "a whole number of per cent from 0 to 100, or \"auto\"",
            SettingKey::Coarsest => "1, 2 or 4",
            SettingKey::Finest => "4, 8 or 16",
            SettingKey::Straight | SettingKey::Moves => "a whole number from 0 to 10000",
            SettingKey::Search => "\"live\" or \"dual\"",
            SettingKey::Proof => "\"best\" or \"bound\"",
            SettingKey::Budget => "a whole number from 1 to 100000",
            SettingKey::Method => "\"make\" or \"map\"",
        }
    }
}
