//! Laws of circuits. These functions do nothing: their contracts are proved of the definitions alone.
ghost use Rattle.std.specs.Prelude.{◌≡◌, ◌≢◌, ◌<◌, ◌^◌, ◌↔◌, Bool, List, [], ℕ, Ok, length};
ghost use Rattle.lists.specs.Lists.{Has};
ghost use Rattle.net_core.specs.NetList.{NetList};
ghost use Rattle.net_words.specs.Bind.{BindingOf};
ghost use Rattle.net_words.specs.Binding.{Binding};
ghost use Rattle.net_words.specs.Variables.{bits};
ghost use Rattle.net_words.specs.declared.bound.BoundWord.{BoundWord};
ghost use Rattle.net_words.specs.declared.feed.FeedText.{FeedText};
ghost use Rattle.net_words.specs.declared.word.Role.TheVariants.{Fed};
ghost use Rattle.net_words.specs.declared.word.WordText.{WordText};
ghost use Rattle.circuit_model.specs.Word.{Word, word_nets};
ghost use Rattle.circuit_model.specs.Circuit.{Circuit, IsInput};
ghost use Rattle.circuit_model.specs.WellFormed.{IsWellFormed};
ghost use Rattle.circuit_model.specs.Job.{IsJob};
ghost use Rattle.circuit_model.specs.OfBinding.{words_of, inner_count};
ghost use Rattle.circuit_model.specs.JobOfBinding.{job_words_of};
ghost use Rattle.circuit_model.specs.InputOrder.{AreOrdered, HasOneDifferingInput};
ghost use Rattle.circuit_model.specs.Run.{IsOpenRun, IsRun};
ghost use Rattle.circuit_model.specs.Out.{Ends, IsOut};
ghost use Rattle.circuit_model.specs.BasedNet.{BasedNet, ComesOfBinding, HasNothingToUnroll, IsBoundInOneCycle, IsSoundlyBound, based_circuit, based_job};

/// A job has exactly one run at each input.
pub fn one_run()
    ensures some { (circuit : Circuit) (xs : List ℕ) → IsJob circuit → IsInput circuit xs → (run : List (List Bool)) × IsRun circuit xs run }
    ensures only { (circuit : Circuit) (xs : List ℕ) (run other : List (List Bool)) → IsJob circuit → IsRun circuit xs run → IsRun circuit xs other → run ≡ other }
{}

/// A job has exactly one output at each input, which is an element of the field.
pub fn one_output()
    ensures some { (circuit : Circuit) (xs : List ℕ) → IsJob circuit → IsInput circuit xs → (e : ℕ) × IsOut circuit xs e × (e < 2 ^ circuit.k) }
    ensures only { (circuit : Circuit) (xs : List ℕ) (e other : ℕ) → IsJob circuit → IsOut circuit xs e → IsOut circuit xs other → e ≡ other }
{}

/// The output does not depend on the primary inputs that are in no word and not fed: whatever bits they have in each
/// cycle, the output word ends with the output's element, and with no other.
pub fn output_of_open_runs()
    ensures { (circuit : Circuit) (xs : List ℕ) (run : List (List Bool)) (e : ℕ) → IsJob circuit → IsOpenRun circuit xs run → Ends circuit run e ↔ IsOut circuit xs e }
{}

/// A well-formed circuit is a job to which nothing is fed, and in which no word is. So it has one run and one output at
/// each input.
pub fn well_formed_circuits_are_jobs()
    ensures { (circuit : Circuit) → IsWellFormed circuit ↔ (IsJob circuit × (circuit.feeds ≡ []) × ((w : Word) → Has circuit.words w → w.role ≢ Fed)) }
{}

/// The job of words and feeds that are bound to a sound net list, with one basis of the field for each word, is one, for
/// any number of cycles; its words are the input, state and fed words of the binding, and so are their bits.
pub fn bound_circuits_are_jobs()
    ensures job { (based : BasedNet) (cycles : ℕ) → IsSoundlyBound based → IsJob (based_job based cycles) }
    ensures bits { (words : List BoundWord) (bases : List (List ℕ)) → length bases ≡ length words → word_nets (job_words_of words bases) ≡ bits words }
    ensures count { (words : List BoundWord) (bases : List (List ℕ)) → length bases ≡ length words → length (job_words_of words bases) ≡ inner_count words }
{}

/// The job of a sound net list to which words and feeds are bound, by what comes of binding them, is one, where each of
/// these words has a basis of the field.
pub fn taken_circuits_are_jobs()
    ensures { (based : BasedNet) (cycles : ℕ) → ComesOfBinding based → IsJob (based_job based cycles) }
{}

/// The circuit of words that are bound to a sound net list in one cycle, with one basis of the field for each, is
/// well-formed; its words are the input, state and fed words of the binding, and so are their bits.
pub fn bound_circuits_are_well_formed()
    ensures well_formed { (based : BasedNet) → IsBoundInOneCycle based → IsWellFormed (based_circuit based) }
    ensures bits { (words : List BoundWord) (bases : List (List ℕ)) → length bases ≡ length words → word_nets (words_of words bases) ≡ bits words }
    ensures count { (words : List BoundWord) (bases : List (List ℕ)) → length bases ≡ length words → length (words_of words bases) ≡ inner_count words }
{}

/// The circuit of a sound net list to which words are bound, by what comes of binding them, is well-formed where nothing is
/// left to unroll and each of these words has a basis of the field; and as many words are bound.
pub fn taken_circuits_are_well_formed()
    ensures well_formed { (based : BasedNet) → ComesOfBinding based → HasNothingToUnroll based → IsWellFormed (based_circuit based) }
    ensures long { (net : NetList) (words : List WordText) (feeds : List FeedText) (bound : Binding) → BindingOf net words feeds (Ok bound) → length bound.words ≡ length words }
{}

/// Inputs of a well-formed circuit are in a total order by their bits that are 1, so that one at most is the first.
pub fn one_first_input()
    ensures { (circuit : Circuit) → AreOrdered circuit }
{}

/// Two circuits over the same words are told apart at one input at most, with one output each.
pub fn one_differing_input()
    ensures { (circuit other : Circuit) → IsWellFormed circuit → IsWellFormed other → HasOneDifferingInput circuit (IsOut circuit) (IsOut other) }
{}
