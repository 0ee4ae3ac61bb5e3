//! What the program's answers say, for all words and held files. These functions do nothing: their contracts are proved of
//! the definitions alone. `run` says that what it wrote is the answer.
ghost use Rattle.std.specs.Prelude.{◌≡◌, ◌⊎◌, ◌↔◌, [], codes, ℕ, List, Option, Some, Ok, Err};
ghost use Rattle.outcome.specs.Outcome.{Determined};
ghost use Rattle.job_io.specs.Shelf.{Files};
ghost use Rattle.net_words.specs.Binding.{BoundNet};
ghost use Rattle.circuit_model.specs.Circuit.{Circuit};
ghost use Rattle.circuit_model.specs.Job.{IsJob};
ghost use Rattle.circuit_model.specs.WellFormed.{IsWellFormed};
ghost use Rattle.job_words.specs.Command.{Trial, IsSpelled};
ghost use Rattle.job_words.specs.Fault.{fault_line, fault_status};
ghost use Rattle.job_words.specs.OneLine.{IsOneLine};
ghost use Rattle.job_words.specs.Operands.{Word};
ghost use Rattle.job_words.specs.declared.fault.Fault.{Fault};
ghost use Rattle.job_input.specs.SettingValue.{SettingValue};
ghost use Rattle.answer_core.specs.Abstraction.{taken_circuit};
ghost use Rattle.answer_core.specs.Printed.{IsTaken, AreHeld, PrintsHeld, PrintsHeldInBits, IsInItsBits, IsInItsWords, HasOutput, HasOutputInBits};
ghost use Rattle.answer_core.specs.Reply.{Reply};
ghost use Rattle.gf_abs.specs.Answer.{Answer, HaveAnswers};
ghost use Rattle.gf_abs.specs.CertificateHeadline.{AnswersTermsLeft, CertificatesAreAccepted, EachCertifyReply, EachUpgradeReply, EachVerify, EachVerifyReply, HoldLastSum, HoldTermsLeft, IsAccepted, IsRejected, PrintsHeldClaim, PrintsHeldProof, PrintsTheSamePairs, UpgradesHaveTheSameReply};
ghost use Rattle.gf_abs.specs.CheckHeadline.{AnswersCheck, ChecksHeld, EachCheckReply, PrintsHeldAcceptance, PrintsHeldRejection};
ghost use Rattle.gf_abs.specs.ComposeHeadline.{ComposePrintsAsAbstract, EachComposeReply};
ghost use Rattle.gf_abs.specs.EvalHeadline.{EachEvalReply, PrintsHeldElement};
ghost use Rattle.gf_abs.specs.Headline.{AnswersBits, AnswersAbstract, AnswersSame, ComparesHeld, EachAbstractReply, EachBitsReply, EachSameReply, EqualBytesAreOneFunction, GiveOneJob, GiveOneOutput, GiveOutputs, HasOneReply, HasOneReplyOverPairs, IsTheOnlyLine, PrintsHeldDifference};
ghost use Rattle.gf_abs.specs.IsoHeadline.{EachIsoReply, PrintsImages};
ghost use Rattle.gf_abs.specs.MakeHeadline.{MadeNetlistsCompute};
ghost use Rattle.gf_abs.specs.TableHeadline.{EachLiftReply, EachTableReply, PrintsHeldLift, PrintsHeldTable, TablesAreLiftedToAbstract};
ghost use Rattle.gf_abs.specs.TrialHeadline.{AnswersTrial, IsTrialFault, PrintsTrial, RefusesTrial};

/// Where the shelf tells what it holds, at most one answer or fault comes of the words.
pub fn one_answer_or_fault()
    ensures { (words : List Word) (files : Files) → Determined (Answer words (Some files)) }
{}

/// At most one answer or fault comes of a trial, which reads no file, whatever the shelf tells.
pub fn one_answer_to_a_trial()
    ensures { (words : List Word) (held : Option Files) (number modulus bound : ℕ) → IsSpelled words (Trial number modulus bound) → Determined (Answer words held) }
{}

/// To all words there is an answer, a reply or a fault, whatever the shelf holds, and also where it does not tell what it holds.
pub fn some_answer_or_fault()
    ensures { HaveAnswers }
{}

/// A reply has status 0 or 1. A fault, which has status 2 or 3, is one line: its text ends with its only line feed, whatever
/// stands in the words and the files.
pub fn each_fault_is_one_line()
    ensures reply { (words : List Word) (held : Option Files) (reply : Reply) → Answer words held (Ok reply) → (reply.status ≡ 0) ⊎ (reply.status ≡ 1) }
    ensures status { (fault : Fault) → (fault_status fault ≡ 2) ⊎ (fault_status fault ≡ 3) }
    ensures line { (words : List Word) (held : Option Files) (fault : Fault) → Answer words held (Err fault) → IsOneLine (fault_line fault) }
{}

/// The circuit of a signature's text and of all cycles of a netlist's text, or a simpler one, is well-formed, so that it has exactly one
/// output at each input.
pub fn each_taken_circuit_is_well_formed()
    ensures { (setting : SettingValue) (circuit : BoundNet) → IsTaken setting circuit → IsWellFormed (taken_circuit setting circuit) }
{}

/// The held files of a signature and a netlist give one setting and one job at most. It is a job: a field, a sound net with words
/// bound to it, and a basis for each word. So it has exactly one output at each input, which is an element of the field: "the
/// output" of the laws that follow.
pub fn held_files_give_one_job()
    ensures job { (files : Files) (signature net : Word) (cycles : ℕ) (setting : SettingValue) (job : Circuit) → AreHeld files signature net cycles setting job → IsJob job }
    ensures one { (files : Files) (signature net : Word) (cycles : ℕ) → GiveOneJob files signature net cycles }
    ensures output { (files : Files) (signature net : Word) (cycles : ℕ) → GiveOutputs files signature net cycles }
    ensures one_output { (files : Files) (signature net : Word) (cycles : ℕ) → GiveOneOutput files signature net cycles }
{}

/// What `abstract` prints is the polynomial of the output of the job in the files, over the cycles of the words: it is reduced, no bit and no other word
/// stands in it, and at each point it has the output word's element at the point's elements.
pub fn abstract_prints_the_output()
    ensures { EachAbstractReply PrintsHeld }
{}

/// What `bits` prints is the polynomial of the output in the bits of the words: it is reduced, nothing else stands in it, and
/// wherever these are the bits of an input it has the output's value there.
pub fn bits_print_the_output()
    ensures { EachBitsReply PrintsHeldInBits }
{}

/// The bytes that `bits` prints are the line of no other polynomial: of the reduced polynomials in the bits of the job's words
/// alone, they are that of exactly those that have the output's value at all bits of each input.
pub fn bits_are_the_only_line()
    ensures { IsTheOnlyLine AnswersBits IsInItsBits HasOutputInBits }
{}

/// Two runs of `bits` over one signature and two netlists, whatever the bounds on terms and the cycles of each, and with `--simplify` or
/// without it, print equal bytes exactly if the outputs are equal at every input.
pub fn equal_bits_exactly_if_equal_functions()
    ensures { EqualBytesAreOneFunction AnswersBits }
{}

/// The printed bytes are the text of no other polynomial: of the reduced polynomials in the job's words alone, it is
/// that of exactly those that have the output word's element at each point.
pub fn bytes_are_the_only_text()
    ensures { IsTheOnlyLine AnswersAbstract IsInItsWords HasOutput }
{}

/// Two runs over one signature and two netlists, whatever the bounds on terms and the cycles of each, and with `--simplify` or without
/// it, print equal bytes exactly if the outputs are equal at every input.
pub fn equal_bytes_exactly_if_equal_functions()
    ensures { EqualBytesAreOneFunction AnswersAbstract }
{}

/// `bits`, `abstract`, `check` and `same` have one reply for the same files and number of cycles, where they have a reply: whatever the
/// bound, and with `--simplify` or without it.
pub fn equal_bytes_with_and_without_simplify()
    ensures in_bits { HasOneReply AnswersBits }
    ensures in_words { HasOneReply AnswersAbstract }
    ensures of_check { HasOneReplyOverPairs AnswersCheck }
    ensures of_same { HasOneReplyOverPairs AnswersSame }
{}

/// `same` prints that two netlists are one function, with status 0, exactly if the outputs of the two jobs in the files are
/// equal at every input; otherwise it answers with status 1, where it gives a reply at all.
pub fn same_exactly_if_equal_functions()
    ensures status { EachSameReply (λ files signature net other cycles reply. (reply.status ≡ 0) ⊎ (reply.status ≡ 1)) }
    ensures equal { EachSameReply ComparesHeld }
    ensures text { EachSameReply (λ files signature net other cycles reply. reply.status ≡ 0 → reply.text ≡ codes "same\n") }
{}

/// With status 1 `same` prints an input at which the outputs of the two jobs in the files differ, and these outputs. Of all inputs where they differ it is
/// the one with the fewest bits that are 1, and among several the one whose rising list of ranks is lexicographically first.
pub fn same_prints_the_differing_input()
    ensures { EachSameReply (λ files signature net other cycles reply. reply.status ≡ 1 → PrintsHeldDifference files signature net other cycles reply) }
{}

/// `check` answers with status 0 exactly if the output of the job in the files is the value of their specification at every input;
/// otherwise it answers with status 1, where it gives a reply at all.
pub fn check_accepts_exactly_if_equal()
    ensures status { EachCheckReply (λ files signature net specification cycles reply. (reply.status ≡ 0) ⊎ (reply.status ≡ 1)) }
    ensures equal { EachCheckReply ChecksHeld }
{}

/// With status 0 `check` prints that the netlist is accepted, and then the polynomial of its output in words.
pub fn check_prints_the_output()
    ensures { EachCheckReply (λ files signature net specification cycles reply. reply.status ≡ 0 → PrintsHeldAcceptance files signature net specification cycles reply) }
{}

/// With status 1 `check` prints that the netlist is rejected, the polynomial of its output in words, and an input at which the
/// output is not the specification's value, with both. Of all such inputs it is the one with the fewest bits that are 1, and
/// among several the one whose rising list of ranks is lexicographically first.
pub fn check_prints_the_differing_input()
    ensures { EachCheckReply (λ files signature net specification cycles reply. reply.status ≡ 1 → PrintsHeldRejection files signature net specification cycles reply) }
{}

/// `eval` prints, with status 0, the element of the output of the job in the files at the values, which are elements of the field, one for each input,
/// state and fed word.
pub fn eval_prints_the_output()
    ensures { EachEvalReply PrintsHeldElement }
{}

/// `table` prints the table of the output of the job in the files: a row for each input, with the output there.
pub fn table_prints_the_outputs()
    ensures { EachTableReply PrintsHeldTable }
{}

/// `lift` prints the one reduced polynomial of the function of the table in its file.
pub fn lift_prints_the_polynomial()
    ensures { EachLiftReply PrintsHeldLift }
{}

/// Where `lift` reads what `table` printed of a netlist, it prints the same bytes as `abstract` on the netlist, where both print.
pub fn tables_are_lifted_to_what_abstract_prints()
    ensures { TablesAreLiftedToAbstract }
{}

/// `iso` prints, with status 0, the images of the numbers 2^i of a tower under the isomorphism to a field of polynomials that
/// takes x and Y to the least roots of their polynomials.
pub fn iso_prints_the_images()
    ensures { EachIsoReply PrintsImages }
{}

/// Where `verify` answers with status 0, it prints that its certificate is valid, and a claim that is the polynomial of the output
/// of the job in the files: reduced, in the job's words alone, and at each point with the output word's element at the point's
/// elements. So it is, whatever the text of the certificate.
pub fn verify_proves_the_output()
    ensures { EachVerifyReply (λ files signature net certificate cycles reply. reply.status ≡ 0 → PrintsHeldProof files signature net cycles reply) }
{}

/// `verify` answers with status 0 exactly if the certificate in the held files is read whole, no running sum of it has more terms
/// than the bound of the words, and the last one is empty; and with status 1 exactly if all this is so but that the last one has
/// terms: then it prints how many.
pub fn verify_answers_by_the_last_sum()
    ensures valid { EachVerify (λ files words signature net certificate bound cycles. IsAccepted files words ↔ HoldLastSum files signature net certificate bound cycles []) }
    ensures invalid { EachVerify (λ files words signature net certificate bound cycles. IsRejected files words ↔ HoldTermsLeft files signature net certificate bound cycles) }
    ensures text { (files : Files) (words : List Word) (signature net certificate : Word) (bound cycles : ℕ) → AnswersTermsLeft files words signature net certificate bound cycles }
{}

/// What `certify` prints under a bound on the terms of stages is accepted by `verify`, over the same signature and netlist, under each
/// bound that is at least four times as large, where it is a file: it has at most 67,108,864 bytes.
pub fn what_certify_prints_is_accepted()
    ensures { CertificatesAreAccepted }
{}

/// What `certify` prints, where it fits a file, is read as a certificate over the circuit of the files, and its claim is the polynomial
/// of the output of their job: reduced, in the job's words alone, and at each point with the output word's element.
pub fn certify_claims_the_output()
    ensures { EachCertifyReply PrintsHeldClaim }
{}

/// What `upgrade` prints is read as a certificate over the circuit of the files, with the claim and the pairs that the certificate
/// in its file says.
pub fn upgrade_keeps_claim_and_pairs()
    ensures { EachUpgradeReply PrintsTheSamePairs }
{}

/// What `upgrade` prints has the reply of the certificate itself, over the same signature and netlist and whatever the bounds, where
/// `verify` gives both a reply: the same verdict, with the same claim or as many terms that are left.
pub fn upgrade_keeps_the_reply()
    ensures { UpgradesHaveTheSameReply }
{}

/// What `make` prints is read back as a netlist that binds to its signature, and the job of both, over the cycles of its kind, computes
/// at every input what the kind does: the product of the two words, the product times the inverse of x to the k, the sum, or the
/// square.
pub fn what_make_prints_computes()
    ensures { MadeNetlistsCompute }
{}

/// What `compose` prints from the polynomials of blocks is the polynomial of the output of the whole netlist, flattened: it is reduced, no bit and
/// no other word stands in it, and at each point it has the output word's element at the point's elements. So where `abstract` prints of the
/// same files, it prints the same bytes.
pub fn compose_prints_the_output()
    ensures prints { EachComposeReply (λ files signature net reply. PrintsHeld files signature net 0 reply) }
    ensures same { ComposePrintsAsAbstract }
{}

/// `trial` prints, with status 0, two factors at which the multiplier that it turned gives another element than their product, with
/// both, and the number of terms of the multiplier's polynomial in words. Of all such factors they are those with the fewest bits
/// that are 1, and among several those whose rising list of ranks is lexicographically first. It is refused for its modulus, as a
/// signature would be, or for a stage of too many terms alone.
pub fn trial_prints_the_differing_input()
    ensures prints { (held : Option Files) (words : List Word) (number modulus : ℕ) (reply : Reply) → AnswersTrial held words number modulus reply → PrintsTrial number modulus reply }
    ensures faults { (held : Option Files) (words : List Word) (number modulus : ℕ) (fault : Fault) → RefusesTrial held words number modulus fault → IsTrialFault modulus fault }
{}
