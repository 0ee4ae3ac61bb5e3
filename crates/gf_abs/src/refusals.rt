//! When commands are refused, when they stop, and when they have an answer. These functions do nothing: their contracts are proved of the definitions alone.
ghost use Rattle.std.specs.Prelude.{◌≡◌, ◌↔◌, Err, false};
ghost use Rattle.job_words.specs.Fault.{fault_status};
ghost use Rattle.job_words.specs.declared.fault.Fault.{Fault};
ghost use Rattle.job_words.specs.declared.fault.Fault.TheVariants.{Stage};
ghost use Rattle.job_words.specs.declared.stage_fault.StageFault.{StageFault};
ghost use Rattle.gf_abs.specs.Answer.{ActionAnswer, Answer};
ghost use Rattle.gf_abs.specs.Refusals.{BothGiven, CertificateGiven, CircuitGiven, EvalGiven, HasNoStages, HasReply, HasReplyOrStop, HierarchyGiven, IsAbstractOver, IsBitsOver, IsCertifyOver, IsCheckOver, IsCompositionOver, IsRefusedInOrder, IsSameOver, IsSumOver, IsTrialRefusedInOrder, LiftGiven, OfAbstract, OfActions, OfBits, OfCertify, OfCheck, OfCompose, OfEval, OfLift, OfSame, OfTable, OfTrial, OfVerify, Reads, Refuses, SimplerGiven, SpecifiedGiven, TableGiven};

/// A fault with status 3 is that of a stage, whatever the command.
pub fn status_3_is_of_a_stage()
    ensures { (fault : Fault) → fault_status fault ≡ 3 → (stage : StageFault) × (fault ≡ Stage stage) }
{}

/// `bits` answers with a fault of status 2 exactly if it is the first of what it reads: the signature's file, its text and bases, the
/// netlist's file, its text and binding, and the number of cycles; whatever the bound, and with `--simplify` or without it. It answers
/// with one of status 3 exactly if none of these is refused and the fault names the first cut over the bound, with its size: a cut of
/// the circuit of all cycles, or with `--simplify` of the simplified one.
pub fn bits_is_refused_in_order()
    ensures { OfBits (λ held words signature net bound cycles simple. IsRefusedInOrder held words signature (SimplerGiven held net cycles simple) (IsBitsOver bound)) }
{}

/// So does `abstract`, whose stages are the cuts and then those of the words.
pub fn abstract_is_refused_in_order()
    ensures { OfAbstract (λ held words signature net bound cycles simple. IsRefusedInOrder held words signature (SimplerGiven held net cycles simple) (IsAbstractOver bound)) }
{}

/// So does `certify`, with the stages of `abstract`.
pub fn certify_is_refused_in_order()
    ensures { OfCertify (λ held words signature net bound cycles. IsRefusedInOrder held words signature (CircuitGiven held net cycles) (IsCertifyOver bound)) }
{}

/// So does `check`, which reads the specification after the netlist, and before it unrolls the cycles. Its stages are those of
/// `abstract` and then those of the specification.
pub fn check_is_refused_in_order()
    ensures { OfCheck (λ held words signature net spec bound cycles simple. IsRefusedInOrder held words signature (SpecifiedGiven held net spec cycles simple) (IsCheckOver bound)) }
{}

/// So does `same`, which reads both netlists before it unrolls the cycles of the first and then of the second. Its stages are the cuts
/// of the first and then of the second.
pub fn same_is_refused_in_order()
    ensures { OfSame (λ held words signature net other bound cycles simple. IsRefusedInOrder held words signature (BothGiven held net other cycles simple) (IsSameOver bound)) }
{}

/// So does `verify`, which reads the certificate line by line at last, whose running sums stand in the place of stages: the first line
/// that shows a fault decides, and where it shows a sum over the bound the fault names the line and the size.
pub fn verify_is_refused_in_order()
    ensures { OfVerify (λ held words signature net cert bound cycles. IsRefusedInOrder held words signature (CertificateGiven held net cert bound cycles) (IsSumOver bound)) }
{}

/// So does `compose`, which may be refused for its structure at last, and whose stages are those of its composition.
pub fn compose_is_refused_in_order()
    ensures { OfCompose (λ held words signature net bound. IsRefusedInOrder held words signature (HierarchyGiven held net bound) (IsCompositionOver bound)) }
{}

/// `trial` is refused exactly for its modulus, as a signature with it would be, and it stops exactly at the first stage over the bound
/// of its multiplier and then of the product.
pub fn trial_is_refused_in_order()
    ensures { OfTrial IsTrialRefusedInOrder }
{}

/// Each command over a signature is refused exactly for its setting or else by what comes of it over the setting; and `eval`, `iso`,
/// `lift`, `table`, `upgrade` and `make`, which have no stages, with status 2 alone.
pub fn each_command_is_refused_in_order()
    ensures refused { OfActions (λ held words signature action fault. Refuses held signature (λ setting. ActionAnswer held setting action) fault ↔ Answer words held (Err fault)) }
    ensures status { OfActions (λ held words signature action fault. HasNoStages action → Answer words held (Err fault) → fault_status fault ≡ 2) }
{}

/// Where nothing that `bits`, `abstract` or `same` reads is refused, with `--simplify` or without it, a reply or a stop with status 3
/// comes of it; and where nothing that `eval`, `table` or `lift` reads is refused, a reply. When it is a stop, the laws above say.
pub fn some_answer_over_a_circuit()
    ensures in_bits { OfBits (λ held words signature net bound cycles simple. Reads held signature (CircuitGiven held net cycles) → HasReplyOrStop words held) }
    ensures in_words { OfAbstract (λ held words signature net bound cycles simple. Reads held signature (CircuitGiven held net cycles) → HasReplyOrStop words held) }
    ensures of_two { OfSame (λ held words signature net other bound cycles simple. Reads held signature (BothGiven held net other cycles false) → HasReplyOrStop words held) }
    ensures of_table { OfTable (λ held words signature net cycles. Reads held signature (TableGiven held net cycles) → HasReply words held) }
    ensures of_lift { OfLift (λ held words signature file. Reads held signature (LiftGiven held file) → HasReply words held) }
    ensures in_values { OfEval (λ held words signature net values cycles. Reads held signature (EvalGiven held net values cycles) → HasReply words held) }
{}
