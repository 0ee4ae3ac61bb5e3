//! Laws of files, fields and settings. These functions do nothing: their contracts are proved of the definitions alone.
ghost use Rattle.std.specs.Prelude.{ℕ, List, Option};
ghost use Rattle.job_io.specs.Shelf.{Files};
ghost use Rattle.job_words.specs.Operands.{Word};
ghost use Rattle.job_input.specs.File.{Read};
ghost use Rattle.job_input.specs.SettingOf.{SettingOf, SettingWith, SignedOf, SignedValue};
ghost use Rattle.job_input.specs.SignedIn.{SecondIn, SecondSignedIn, SignedIn};
ghost use Rattle.job_laws.specs.HasOutcome.{HasOutcome};
ghost use Rattle.job_laws.specs.Held.{HeldSettingsAreSound};
ghost use Rattle.job_laws.specs.Named.{HaveFields};

/// Each file is read or refused, also where the shelf does not tell what it holds.
pub fn some_file_or_fault()
    ensures { (held : Option Files) (file : Word) → HasOutcome (Read held file) }
{}

/// A modulus and the coefficients of towers name a field or have a fault, where a second step stands only over a first one.
pub fn some_field_or_fault()
    ensures { HaveFields }
{}

/// Each text, each file, and each second file has a signature with its field, or a fault.
pub fn some_signed_or_fault()
    ensures text { (text : List ℕ) → HasOutcome (SignedOf text) }
    ensures file { (held : Option Files) (file : Word) → HasOutcome (SignedIn held file) }
    ensures second { (held : Option Files) (file : Word) → HasOutcome (SecondSignedIn held file) }
{}

/// Each signature over its field has a setting or a fault, and so has each text; each second file has its signature or a fault.
pub fn some_setting_or_fault()
    ensures signed { (signed : SignedValue) → HasOutcome (SettingWith signed) }
    ensures text { (text : List ℕ) → HasOutcome (SettingOf text) }
    ensures second { (held : Option Files) (file : Word) → HasOutcome (SecondIn held file) }
{}

/// The setting of a signature's file is sound, also where the shelf does not tell what it holds.
pub fn each_held_setting_is_sound()
    ensures { HeldSettingsAreSound }
{}
