//! The names of the variables of a text.
ghost use Rattle.std.specs.Prelude.{◌≡◌, ℕ, ◌+◌, ◌<◌, ◌≤◌, List, [], ◌∷◌, ◌++◌, length, map, slice_index, string_bytes, ◌^◌, cond, nat_lt, Option, Some, None, IfSome, IfOk, OnOk};
ghost use Rattle.poly_mixed.specs.Labels.{Labelling, AreDifferent, AreLabels, Differs, word_at, rank_text, bit_count, bit_text as text_of_bit, net_text as text_of_net, word_of, bit_of, net_of};
ghost use Rattle.poly_mixed.specs.Said.{net_rank as rank_of_net};
ghost use Rattle.text_core.specs.Scan.{IsValue};
ghost use Rattle.std.specs.List.{AllByRecursion};
ghost use Rattle.std.specs.Option.{option_and_then};
ghost use Rattle.text_core.specs.Names.{IsName};

use std::alloc::{AllocError, Global};
use std::marker::Model;

// An input, state or fed word with its number of bits.
#[derive(Drop)]
struct LabelledWord {
    name: String,
    bits: u32,
}

impl Model for LabelledWord {
    ghost use Rattle.std.specs.Prelude.{◌≡◌, ℕ, List, string_bytes};

    ghost Value = { List ℕ × ℕ };

    ghost view = { λ w. (string_bytes w.name, w.bits) };
}

/// The names of the variables of a text: the words, the bits of the words by word and by place, and further nets.
pub struct Labels {
    output: String,
    words: Vec<LabelledWord>,
    nets: Vec<u32>,
    alloc: Global,
}

impl Model for Labels {
    ghost use Rattle.std.specs.Prelude.{◌≡◌, ℕ, List, string_bytes};
    ghost use Rattle.poly_mixed.specs.Labels.{Labelling, AreLabels};

    ghost Value = { Labelling };

    ghost view = { λ l. record { output = string_bytes l.output; words = l.words.items; nets = l.nets.items } };

    ghost invariant = { λ l. AreLabels (record { output = string_bytes l.output; words = l.words.items; nets = l.nets.items }) };
}

// By hand, so that a caller that lets them go makes one call, and not one for each part.
impl Drop for Labels {
    fn drop(self) {
        let Labels {
            output,
            words,
            nets,
            alloc: _,
        } = self;
        drop(output);
        drop(words);
        drop(nets);
    }
}

impl Labels {
    /// Labels with the output word's name (a letter, then letters, digits and `_`, at most 255 bytes), no word and no
    /// further net.
    pub fn new(alloc: Global, output: &str) -> Result<Labels, AllocError>
        requires name { IsName output.now }
        ensures { IfOk result (λ l. l ≡ record { output = output.now; words = []; nets = [] }) }
    {
        Ok(Labels {
            output: String::from_str(alloc, output)?,
            words: Vec::new(alloc),
            nets: Vec::new(alloc),
            alloc,
        })
    }

    /// The next input, state or fed word, of 1 to 64 bits; all words, at most 8, come before the first net.
    /// After running out of memory the labels are not used again.
    pub fn word(&mut self, name: &str, bits: u32) -> Result<(), AllocError>
        requires name { IsName name.now }
        requires new { Differs name.now (map (λ w. w.0) self.old.words) }
        requires bits { (1 ≤ bits) × (bits ≤ 64) }
        requires few { length self.old.words < 8 }
        requires first { self.old.nets ≡ [] }
        ensures { OnOk result (self.new ≡ record { output = self.old.output; words = self.old.words ++ (name.now, bits) ∷ []; nets = self.old.nets }) }
    {
        let name = String::from_str(self.alloc, name)?;
        self.words.push(LabelledWord { name, bits })?;
        Ok(())
    }

    /// The net of the next rank, by its number, which no net before has.
    /// After running out of memory the labels are not used again.
    pub fn net(&mut self, number: u32) -> Result<(), AllocError>
        requires new { Differs number self.old.nets }
        ensures { OnOk result (self.new ≡ record { output = self.old.output; words = self.old.words; nets = self.old.nets ++ number ∷ [] }) }
    {
        self.nets.push(number)?;
        Ok(())
    }

    /// The output word's name.
    pub fn output(&self) -> &str
        ensures { result.now ≡ self.now.output }
    {
        self.output.as_str()
    }

    // What the type keeps.
    pub(crate) fn check(&self)
        ensures { AreLabels self.now }
    {
        let _ = &self.words;
    }

    /// How many input, state and fed words there are.
    pub fn words(&self) -> u32
        ensures value { result ≡ length self.now.words }
        ensures few { result ≤ 8 }
    {
        self.words.len() as u32
    }

    /// The name of a word, below the number of words.
    pub fn name(&self, word: u32) -> &str
        requires { word < length self.now.words }
        ensures { result.now ≡ (word_at self.now.words word).0 }
    {
        self.words[word as usize].name.as_str()
    }

    /// The number of bits, 1 to 64, of a word, below the number of words.
    pub fn bits(&self, word: u32) -> u32
        requires { word < length self.now.words }
        ensures { result ≡ (word_at self.now.words word).1 }
    {
        self.words[word as usize].bits
    }

    /// How many ranks have a name: the bits of the words and the nets.
    pub fn ranks(&self) -> u64
        ensures { result ≡ bit_count self.now.words + length self.now.nets }
    {
        let mut count = self.nets.len() as u64;
        for word in &self.words {
            count += u64::from(word.bits);
        }
        count
    }

    // The number of the word of a name.
    pub(crate) fn word_number(&self, name: &[u8]) -> Option<usize>
        ensures { result ≡ word_of self.now.words name.now }
    {
        for (i, word) in self.words.iter().enumerate() {
            if word.name.as_bytes() == name {
                return Some(i);
            }
        }
        None
    }

    // The rank of the bit of a name at a place; no place is none that a word has.
    pub(crate) fn bit_rank(&self, name: &[u8], place: Option<u64>) -> Option<u32>
        ensures { (n : ℕ) → IsValue place n → result ≡ bit_of self.now.words name.now n }
    {
        let mut first: u32 = 0;
        for word in &self.words {
            if word.name.as_bytes() == name {
                return bit_in(first, word.bits, place);
            }
            first += word.bits;
        }
        None
    }

    // The rank of the net of a number; no number is none that a net has.
    pub(crate) fn net_rank(&self, number: Option<u64>) -> Option<u32>
        ensures { (n : ℕ) → IsValue number n → result ≡ rank_of_net self.now n }
    {
        let mut bits: u32 = 0;
        for word in &self.words {
            bits += word.bits;
        }
        rank_from(bits, net_place(&self.nets, number))
    }

    // How the bit or net of a rank is written.
    pub(crate) fn rank(&self, alloc: Global, rank: u32) -> Result<String, AllocError>
        requires { rank < bit_count self.now.words + length self.now.nets }
        ensures { IfOk result (λ s. string_bytes s ≡ rank_text self.now.words self.now.nets rank) }
    {
        let mut left = rank;
        for word in &self.words {
            if left < word.bits {
                return bit_text(alloc, word.name.as_str(), left);
            }
            left -= word.bits;
        }
        net_text(alloc, self.nets[left as usize])
    }
}

// `W[i]`
fn bit_text(alloc: Global, name: &str, place: u32) -> Result<String, AllocError>
    ensures { IfOk result (λ s. string_bytes s ≡ text_of_bit name.now place) }
{
    format!(in alloc; "{}[{}]", name, place)
}

// `@` and the number
fn net_text(alloc: Global, number: u32) -> Result<String, AllocError>
    ensures { IfOk result (λ s. string_bytes s ≡ text_of_net number) }
{
    format!(in alloc; "@{}", number)
}

// The rank of a place of a word whose first bit has the rank `first`.
fn bit_in(first: u32, bits: u32, place: Option<u64>) -> Option<u32>
    requires { first + bits < 2 ^ 32 }
    ensures { (n : ℕ) → IsValue place n → result ≡ cond (nat_lt n bits) (Some (first + n)) None }
{
    match place {
        Some(n) if n < u64::from(bits) => Some(first + n as u32),
        _ => None,
    }
}

// The rank of a place among the nets, where it is below 2^32.
fn rank_from(bits: u32, place: Option<usize>) -> Option<u32>
    ensures { result ≡ option_and_then (λ i. cond (nat_lt (bits + i) (2 ^ 32)) (Some (bits + i)) None) place }
{
    match place {
        Some(i) => {
            let rank = u128::from(bits) + i as u128;
            if rank < 1 << 32 {
                Some(rank as u32)
            } else {
                None
            }
        }
        None => None,
    }
}

// The place of a number among different nets. Where the numbers rise, a number that is there is found by halving.
fn net_place(nets: &[u32], number: Option<u64>) -> Option<usize>
    requires { AreDifferent nets.now × AllByRecursion (λ n. n < 2 ^ 32) nets.now }
    ensures { (n : ℕ) → IsValue number n → result ≡ net_of nets.now n }
{
    let Some(number) = number else {
        return None;
    };
    match halved(nets, number) {
        Some(i) => Some(i),
        None => first_place(nets, number),
    }
}

// A place of a number, where halving finds one.
fn halved(nets: &[u32], number: u64) -> Option<usize>
    ensures { IfSome result (λ i. (i < length nets.now) × (slice_index nets.now i ≡ number)) }
{
    let mut low = 0;
    let mut high = nets.len();
    while low < high {
        let middle = low + (high - low) / 2;
        let found = u64::from(nets[middle]);
        if found == number {
            return Some(middle);
        }
        if found < number {
            low = middle + 1;
        } else {
            high = middle;
        }
    }
    None
}

// The first place of a number.
fn first_place(nets: &[u32], number: u64) -> Option<usize>
    ensures { result ≡ net_of nets.now number }
{
    for (i, net) in nets.iter().enumerate() {
        if u64::from(*net) == number {
            return Some(i);
        }
    }
    None
}
