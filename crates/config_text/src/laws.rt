// Laws of the texts, for the crates above. No function here does anything.
ghost use Rattle.std.specs.Prelude.{◌≡◌, ◌⊎◌, List, ℕ};
ghost use Rattle.plp_config.specs.declared.config.Config.{Config};
ghost use Rattle.config_text.specs.ConfigText.{Spells, Refuses};
ghost use Rattle.config_text.specs.declared.fault.TextWhy.{TextWhy};

/// A text spells one configuration.
pub fn spelled_once_law()
    ensures { (text : List ℕ) (c d : Config) → Spells text c → Spells text d → c ≡ d }
{}

/// A text that spells a configuration is not refused.
pub fn not_refused_law()
    ensures { (text : List ℕ) (c : Config) (line : ℕ) (why : TextWhy) → Spells text c → Refuses text line why → ⊥ }
{}

/// A text has one refusal.
pub fn refused_once_law()
    ensures { (text : List ℕ) (line other : ℕ) (why reason : TextWhy) → Refuses text line why
        → Refuses text other reason
        → (line ≡ other) × (why ≡ reason) }
{}

/// Each text spells a configuration or is refused.
pub fn decided_law()
    ensures { (text : List ℕ) → ((c : Config) × Spells text c) ⊎ ((line : ℕ) × (why : TextWhy)
        × Refuses text line why) }
{}
