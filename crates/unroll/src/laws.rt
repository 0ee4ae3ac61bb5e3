//! Laws of unrolled nets. These functions do nothing: their contracts are proved of the definitions alone.
ghost use Rattle.std.specs.Prelude.{◌≡◌, ◌+◌, ◌*◌, ℕ, length};
ghost use Rattle.net_core.specs.NetList.{NetList, nets};
ghost use Rattle.net_core.specs.Sound.{IsSound};
ghost use Rattle.net_words.specs.Binding.{Binding};
ghost use Rattle.net_words.specs.BoundTo.{IsBoundTo};
ghost use Rattle.net_words.specs.OneCycle.{IsOneCycle};
ghost use Rattle.unroll.specs.Unrolled.{unrolled};
ghost use Rattle.unroll.specs.Counts.{HaveSameOutputs, IsToUnroll, IsSmall, fed_words, gate_count, unrolled_circuit, unrolled_net};
ghost use Rattle.circuit_model.specs.BasedNet.{BasedNet, IsSoundlyBound, based_job};

/// Where there is something to unroll, with v nets, G gates, I primary inputs, L latches, U of them in no state word, f fed words
/// and H fed nets, there are `(c + 1) v + f k` nets and `(c + 1) G + U + c (I + L) + H` gates.
pub fn counts_of_unrolled_nets()
    ensures nets { (net : NetList) (binding : Binding) (c : ℕ) → IsToUnroll net binding → nets (unrolled net binding c).net ≡ (c + 1) * nets net + fed_words binding * binding.k }
    ensures gates { (net : NetList) (binding : Binding) (c : ℕ) → IsToUnroll net binding → length (unrolled net binding c).net.gates ≡ gate_count net binding c }
{}

/// Within the limits, the unrolled net is sound, and its words are bound to it in one cycle.
pub fn unrolled_nets_are_sound()
    ensures sound { (net : NetList) (binding : Binding) (c : ℕ) → IsSound net → IsBoundTo net binding → IsSmall (unrolled net binding c).net → IsSound (unrolled net binding c).net }
    ensures one_cycle { (net : NetList) (binding : Binding) (c : ℕ) → IsSound net → IsBoundTo net binding → IsOneCycle (unrolled net binding c).net (unrolled net binding c).binding }
{}

/// The circuit of the unrolled net has at each input the output that the job has after its cycles, and no other.
pub fn unrolled_circuits_compute_the_job()
    ensures { (based : BasedNet) (c : ℕ) → IsSoundlyBound based → IsSmall (unrolled_net based c) → HaveSameOutputs (unrolled_circuit based c) (based_job based c) }
{}
