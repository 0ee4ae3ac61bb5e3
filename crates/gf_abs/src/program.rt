//! The program as one function of its words, its files and its output, and what it printed.
ghost use Rattle.std.specs.Prelude.{◌≡◌, ◌⊎◌, ◌≤◌, Some, map, string_bytes};
ghost use Rattle.std.specs.Io.KnownBytes.{Keeps};
ghost use Rattle.job_io.specs.SureShelf.{sure_files, sure_misses};
ghost use Rattle.job_input.specs.Reads.{Rises};
ghost use Rattle.gf_abs.specs.Answer.{Answer};
ghost use Rattle.gf_abs.specs.RunHeadline.{AbstractPrints, BitsPrints, CertifyPrints, CheckAccepts, CheckRejects, ComposePrints, EvalPrints, IsoPrints, LiftPrints, MakePrints, SameAgrees, SameDiffers, TablePrints, TrialPrints, UpgradePrints, VerifyLeavesTerms, VerifyProves};
ghost use Rattle.gf_abs.specs.Written.{IsText, OutsideFailed, WritesEachAnswer, WritesItsAnswer, WritesWhole};

use crate::top::write_answer;
use job_io::{Shelf, Sink, SureShelf, SureSink};
use std::alloc::Global;

/// All that the program does: the words after its name, the files that it may read, the output.
/// The result is its status: 0 printed or yes, 1 no, 2 refused, 3 a stage passed the bound, 4 the outside failed, 5 out of memory.
pub fn run<S: Shelf, K: Sink>(alloc: Global, words: &[String], shelf: &mut S, sink: &mut K) -> u8
    // The whole of an answer is written, with its status, unless the outside or memory fails.
    ensures answers { (result ≡ 4) ⊎ (result ≡ 5) ⊎ WritesWhole (map string_bytes words.now) S.held S.misses shelf.old shelf.new result K.written sink.old sink.new }
    // At 4 the shelf failed and nothing was written, or the sink failed and less than the whole was.
    ensures failed { result ≡ 4 → OutsideFailed (map string_bytes words.now) S.held S.misses S.faults shelf.old shelf.new K.faults K.written sink.old sink.new }
    ensures no_memory { result ≡ 5 → Keeps (K.written sink.old) (K.written sink.new) }

    // Where the shelf tells what it holds, an answer or a fault comes of the words, and it was written whole, unless the outside or
    // memory fails.
    ensures answered { WritesItsAnswer (map string_bytes words.now) S.held S.faults shelf.old shelf.new K.faults K.written sink.old sink.new result }
    // There is one at most: so it is with each that comes of the words.
    ensures complete { WritesEachAnswer (map string_bytes words.now) S.held S.faults shelf.old shelf.new K.faults K.written sink.old sink.new result }

    // Where the shelf tells what it holds, this is what was printed of the job that the held files give, command by command, with
    // status 0 and with status 1.
    ensures abstract_prints { AbstractPrints (map string_bytes words.now) (S.held shelf.old) result (K.written sink.old) (K.written sink.new) }
    ensures bits_prints { BitsPrints (map string_bytes words.now) (S.held shelf.old) result (K.written sink.old) (K.written sink.new) }
    ensures check_accepts { CheckAccepts (map string_bytes words.now) (S.held shelf.old) result (K.written sink.old) (K.written sink.new) }
    ensures check_rejects { CheckRejects (map string_bytes words.now) (S.held shelf.old) result (K.written sink.old) (K.written sink.new) }
    ensures same_agrees { SameAgrees (map string_bytes words.now) (S.held shelf.old) result (K.written sink.old) (K.written sink.new) }
    ensures same_differs { SameDiffers (map string_bytes words.now) (S.held shelf.old) result (K.written sink.old) (K.written sink.new) }
    ensures verify_proves { VerifyProves (map string_bytes words.now) (S.held shelf.old) result (K.written sink.old) (K.written sink.new) }
    ensures verify_leaves_terms { VerifyLeavesTerms (map string_bytes words.now) (S.held shelf.old) result (K.written sink.old) (K.written sink.new) }
    ensures eval_prints { EvalPrints (map string_bytes words.now) (S.held shelf.old) result (K.written sink.old) (K.written sink.new) }
    ensures table_prints { TablePrints (map string_bytes words.now) (S.held shelf.old) result (K.written sink.old) (K.written sink.new) }
    ensures lift_prints { LiftPrints (map string_bytes words.now) (S.held shelf.old) result (K.written sink.old) (K.written sink.new) }
    ensures iso_prints { IsoPrints (map string_bytes words.now) (S.held shelf.old) result (K.written sink.old) (K.written sink.new) }
    ensures certify_prints { CertifyPrints (map string_bytes words.now) (S.held shelf.old) result (K.written sink.old) (K.written sink.new) }
    ensures upgrade_prints { UpgradePrints (map string_bytes words.now) (S.held shelf.old) result (K.written sink.old) (K.written sink.new) }
    ensures compose_prints { ComposePrints (map string_bytes words.now) (S.held shelf.old) result (K.written sink.old) (K.written sink.new) }
    ensures make_prints { MakePrints (map string_bytes words.now) (S.held shelf.old) result (K.written sink.old) (K.written sink.new) }
    // `trial` reads no file.
    ensures trial_prints { TrialPrints (map string_bytes words.now) (S.held shelf.old) result (K.written sink.old) (K.written sink.new) }

    // What the shelf holds is not changed, and counts never fall.
    ensures held { S.held shelf.new ≡ S.held shelf.old }
    ensures shelf_counts { (S.faults shelf.old ≤ S.faults shelf.new) × (S.misses shelf.old ≤ S.misses shelf.new) }
    ensures sink_counts { K.faults sink.old ≤ K.faults sink.new }
{
    write_answer(alloc, words, shelf, sink)
}

/// All that the program does, over a shelf and a sink that never fail: the status is that of the answer, or out of memory.
pub fn run_surely(alloc: Global, words: &[String], shelf: &mut SureShelf, sink: &mut SureSink) -> u8
    ensures answers { (result ≡ 5) ⊎ ((text : _) × IsText (Answer (map string_bytes words.now) (Some (sure_files shelf.old)))
        (Rises sure_misses shelf.old shelf.new) result text) }
    ensures held { sure_files shelf.new ≡ sure_files shelf.old }
    ensures counts { sure_misses shelf.old ≤ sure_misses shelf.new }
{
    run(alloc, words, shelf, sink)
}
