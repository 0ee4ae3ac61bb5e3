//! The labels with which a job's polynomials are printed.
ghost use Rattle.std.specs.Prelude.{◌≡◌, ◌≤◌, ◌++◌, ℕ, [], IfOk, OnOk};
ghost use Rattle.text_core.specs.Names.{IsName};
ghost use Rattle.net_words.specs.Binding.{AreWords};
ghost use Rattle.net_signature.specs.WordNames.{HaveNames};
ghost use Rattle.job_input.specs.Labelling.{labels_of, word_label, IsNewLabel, output_name as name_of_output};

use net_words::{Role, WordText};
use poly_mixed::Labels;
use std::alloc::{AllocError, Global};

/// The labels of polynomials in the words of a signature, each of k bits, and in their bits.
pub fn labels_for(alloc: Global, words: &[WordText], k: u32) -> Result<Labels, AllocError>
    requires words { AreWords k words.now }
    requires names { HaveNames words.now }
    ensures { IfOk result (λ labels. labels ≡ labels_of k words.now) }
{
    let mut labels = Labels::new(alloc, output_name(words))?;
    for word in words {
        add_label(&mut labels, word, k)?;
    }
    Ok(labels)
}

// The name of the output word.
fn output_name<'a>(words: &'a [WordText]) -> &'a str
    requires words { (k : ℕ) × AreWords k words.now }
    requires names { HaveNames words.now }
    ensures name { result.now ≡ name_of_output words.now }
    ensures is_name { IsName result.now }
{
    for word in words {
        if let Role::Output = word.role {
            return word.name.as_str();
        }
    }
    unreachable!()
}

// Adds a word's label, unless it is the output word.
fn add_label(labels: &mut Labels, word: &WordText, k: u32) -> Result<(), AllocError>
    requires name { IsName word.now.name }
    requires bits { (1 ≤ k) × (k ≤ 64) }
    requires first { labels.old.nets ≡ [] }
    requires new { IsNewLabel word.now.role word.now.name labels.old.words }
    ensures { OnOk result (labels.new ≡ record { output = labels.old.output; words = labels.old.words ++ word_label word.now.role word.now.name k; nets = [] }) }
{
    match word.role {
        Role::Input | Role::State | Role::Fed => labels.word(word.name.as_str(), k),
        Role::Output => Ok(()),
    }
}
