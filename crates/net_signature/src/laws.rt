//! Laws of signatures. These functions do nothing: their contracts are proved of the definitions alone.
ghost use Rattle.std.specs.Prelude.{◌≡◌, List, length, map, Ok, Err, Some, ℕ};
ghost use Rattle.outcome.specs.Outcome.{Determined};
ghost use Rattle.net_words.specs.Feeds.{AreFeeds};
ghost use Rattle.net_signature.specs.Signature.{Sig, SignatureValue};
ghost use Rattle.net_signature.specs.Statement.{IsNetToken};
ghost use Rattle.net_signature.specs.WordNames.{HaveNames};
ghost use Rattle.net_signature.specs.declared.fault.SigFault.TheVariants.{NoOutput};

/// At most one signature or fault comes of a text.
pub fn one_signature_or_fault()
    ensures { (text : List ℕ) → Determined (Sig text) }
{}

/// The words of a signature have names, and no two have the same.
pub fn words_have_names()
    ensures { (text : List ℕ) (signature : SignatureValue) → Sig text (Ok signature) → HaveNames signature.words }
{}

/// The model that the fault of a text names is a token: at most 255 bytes that print.
pub fn named_models_are_tokens()
    ensures { (text model : List ℕ) → Sig text (Err (NoOutput (Some model))) → IsNetToken model }
{}

/// A feed of a signature is a constant or a place below 64 of a fed word of the top, and no two are of one net and cycle.
pub fn feeds_are_of_fed_words()
    ensures { (text : List ℕ) (signature : SignatureValue) → Sig text (Ok signature) → AreFeeds 64 (map (λ word. word.role) signature.words) signature.feeds }
{}

/// A signature without a tower has none over it.
pub fn no_tower_over_none()
    ensures { (text : List ℕ) (signature : SignatureValue) → Sig text (Ok signature) → length signature.tower ≡ 0 → length signature.upper ≡ 0 }
{}
