//! The multiplier of a tower: its products, sums and reduction put together over the nets of a signature.
ghost use Rattle.std.specs.Prelude.{◌≡◌, ◌*◌, ◌-◌, ◌≤◌, [], IfOk, OnOk, IsErrOf, length};
ghost use Rattle.gf_field.specs.Quotient.{product};
ghost use Rattle.gf_field.specs.Ring2k.{degree_of, modulus_of};
ghost use Rattle.gf_tower.specs.TowerParts.{base_of, coefficients_of, size_of};
ghost use Rattle.irreducible.specs.Proved.{ring_of};
ghost use Rattle.net_core.specs.Sound.{IsSound};
ghost use Rattle.make_nets.specs.MadeNet.{outer_net};
ghost use Rattle.net_words.specs.declared.word.Role.TheVariants.{Input};
ghost use Rattle.net_write.specs.Plain.{HasPlainNames};
ghost use Rattle.make_nets.specs.Form.{AllWide, HasWords};
ghost use Rattle.make_nets.specs.Ports.{outer_names};
ghost use Rattle.mult_gen.specs.Form.{AreWide, HasPorts};
ghost use Rattle.mult_composite.specs.Form.{HasCompositeForm, IsMadeIn, MultipliesIn, MultipliesInTower, made_composite, plan_of_words};
ghost use Rattle.make_laws.specs.TowerParts.{base_modulus, polynomial_in};
ghost use Rattle.mult_composite.specs.private.ByPowers.{IsPlanBy};

use crate::form::composite_ports;
use crate::powers::high_powers;
use crate::products::all_products;
use crate::sizes::{degree_below, size};
use crate::sums::{pair_sums, reduced_sums};
use gf_field::Ring2k;
use gf_tower::Tower;
use irreducible::Proved;
use make_nets::PlanMaker;
use mult_gen::{MakeFault, inputs, net_of, outer, outputs, powers_of_x};
use net_core::{Net, NetMaker};
use net_signature::Signature;
use std::alloc::{AllocError, Global};

// The gates over nets of the factors and of the product.
fn gates(
    alloc: Global,
    base: &Proved<Ring2k>,
    n: usize,
    m: usize,
    powers: &[u64],
    outer: u32,
    a: &[u32],
    b: &[u32],
    z: &[u32],
) -> Result<PlanMaker, AllocError>
    requires degree { n ≡ degree_of (ring_of base.now) }
    requires some { 1 ≤ n }
    requires two { 2 ≤ m }
    requires low { n ≤ 32 }
    requires few { m ≤ 64 }
    requires small { n * m ≤ 64 }
    requires powers { length powers.now ≡ m - 1 }
    requires first { length a.now ≡ n * m }
    requires second { length b.now ≡ n * m }
    requires targets { length z.now ≡ m * n }
    requires count { length z.now ≤ 64 }
    requires room { outer ≤ 192 }
    ensures { IfOk result (λ plan. IsPlanBy n (modulus_of (ring_of base.now)) m powers.now outer a.now b.now z.now plan) }
{
    let mut plan = PlanMaker::new(alloc, outer);
    let x_powers = powers_of_x(alloc, base, 2 * n)?;
    let products = all_products(alloc, &mut plan, base, &x_powers, n, m, a, b)?;
    let product_nets = products.as_slice();
    let sums = pair_sums(alloc, &mut plan, n, m, product_nets)?;
    let sum_nets = sums.as_slice();
    reduced_sums(alloc, &mut plan, base, n, m, &x_powers, powers, z, sum_nets)?;
    Ok(plan)
}

// The gates over the nets of the words.
fn plan_of(
    alloc: Global,
    tower: &Tower<Proved<Ring2k>>,
    n: usize,
    m: usize,
    signature: &Signature,
) -> Result<PlanMaker, AllocError>
    requires degree { n ≡ degree_of (ring_of (base_of tower.now)) }
    requires size { m ≡ size_of tower.now }
    requires some { 1 ≤ n }
    requires two { 2 ≤ m }
    requires low { n ≤ 32 }
    requires few { m ≤ 64 }
    requires small { n * m ≤ 64 }
    requires words { HasWords Input 2 signature.now.words }
    requires wide { AllWide (n * m) signature.now.words }
    ensures { IfOk result (λ plan. plan ≡ plan_of_words n (base_modulus tower.now) m (polynomial_in n tower.now) signature.now.words) }
{
    let k = n * m;
    let inputs = inputs(alloc, signature, k as u32, 2)?;
    let outputs = outputs(alloc, signature, k as u32, 2)?;
    let (a, b) = inputs.as_slice().split_at(k);
    let first = outer(signature, k as u32, 2);
    let powers = high_powers(alloc, tower, n, m)?;
    let power_list = powers.as_slice();
    let z = outputs.as_slice();
    gates(alloc, tower.base(), n, m, power_list, first, a, b, z)
}

// The net over the nets of the words.
fn made(
    alloc: Global,
    tower: &Proved<Tower<Proved<Ring2k>>>,
    n: usize,
    m: usize,
    maker: NetMaker,
    signature: &Signature,
) -> Result<Net, AllocError>
    requires degree { n ≡ degree_of (ring_of (base_of (ring_of tower.now))) }
    requires size { m ≡ size_of (ring_of tower.now) }
    requires some { 1 ≤ n }
    requires two { 2 ≤ m }
    requires low { n ≤ 32 }
    requires few { m ≤ 64 }
    requires small { n * m ≤ 64 }
    requires ports { HasPorts 2 signature.now }
    requires wide { AllWide (n * m) signature.now.words }
    requires maker { maker ≡ outer_net (outer_names signature.now.words []) }
    ensures made { IfOk result (λ net. net ≡ made_composite n (base_modulus (ring_of tower.now)) m (polynomial_in n (ring_of tower.now)) signature.now.words) }
    ensures sound { IfOk result (λ net. IsSound net) }
    ensures plain { IfOk result (λ net. HasPlainNames net) }
    ensures computes { IfOk result (λ net. MultipliesInTower n (base_modulus (ring_of tower.now)) m (polynomial_in n (ring_of tower.now)) net signature.now.words) }
{
    let plan = plan_of(alloc, tower.ring(), n, m, signature)?;
    let net = net_of(alloc, maker, signature, 2, &plan)?;
    Ok(net)
}

/// A netlist of the product A * B in a tower: the products of each coefficient of A and each of B, their sums by place, and
/// for each bit of the product what reaches it. The words are two inputs and the output, all by `poly`, over a field with
/// one tower, without feeds and blocks; their nets are different and have plain names of at most 128 bytes. Else it is
/// `Unfit`. The field is the signature's, and each word that is not fed has as many
/// nets as its degree.
/// Source: Paar, Efficient VLSI Architectures for Bit-Parallel Computation in Galois Fields, Essen, 1994.
pub fn composite(
    alloc: Global,
    tower: &Proved<Tower<Proved<Ring2k>>>,
    signature: &Signature,
) -> Result<Net, MakeFault>
    requires modulus { modulus_of (ring_of (base_of (ring_of tower.now))) ≡ signature.now.modulus }
    requires tower { coefficients_of (ring_of tower.now) ≡ signature.now.tower }
    requires wide { AreWide (degree_of (ring_of (base_of (ring_of tower.now))) * size_of (ring_of tower.now)) signature.now.words }
    ensures made { IfOk result (λ net. IsMadeIn (ring_of tower.now) signature.now.words net) }
    ensures sound { IfOk result (λ net. IsSound net) }
    ensures plain { IfOk result (λ net. HasPlainNames net) }
    ensures computes { IfOk result (λ net. MultipliesIn (ring_of tower.now) signature.now.words net) }
    ensures form { OnOk result (HasCompositeForm signature.now) }
    ensures unfit { IsErrOf result MakeFault.Unfit → HasCompositeForm signature.now → ⊥ }
{
    let n = degree_below(tower.ring());
    let m = size(tower.ring());
    let k = n * m;
    let maker = match composite_ports(alloc, signature, k as u32) {
        Ok(maker) => maker,
        Err(fault) => return Err(fault),
    };
    let net = made(alloc, tower, n, m, maker, signature)?;
    Ok(net)
}
