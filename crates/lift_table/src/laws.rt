//! Laws of tables. These functions do nothing: their contracts are proved of the definitions alone.
ghost use Rattle.std.specs.Prelude.{◌≡◌, ◌<◌, ◌*◌, ◌/◌, ◌%◌, ◌^◌, ℕ, List, Result, Some, length, slice_get};
ghost use Rattle.std.specs.List.{AllByRecursion};
ghost use Rattle.outcome.specs.Outcome.{Determined};
ghost use Rattle.gf_field.specs.Element.{AreElements};
ghost use Rattle.poly_mixed.specs.Polynomial.{IsElement, Terms};
ghost use Rattle.circuit_model.specs.Circuit.{Circuit};
ghost use Rattle.circuit_model.specs.WellFormed.{IsWellFormed};
ghost use Rattle.lift_table.specs.CircuitTable.{HasOutputs, IsItsPolynomial, IsTableOf};
ghost use Rattle.lift_table.specs.OneWord.{value_of, IsFunction};
ghost use Rattle.lift_table.specs.Table.{row_of};
ghost use Rattle.lift_table.specs.TablePolynomial.{HasOnePolynomial};
ghost use Rattle.lift_table.specs.TableText.{TableOutcome};
ghost use Rattle.lift_table.specs.declared.fault.TableFault.{TableFault};

use gf_field::Field;

/// Word w of an input is the row divided by 2^(k*w), modulo 2^k; each row below 2^(k*m) is that of one input of m words.
pub fn rows_are_digits()
    ensures digit { (k : ℕ) (xs : List ℕ) (w x : ℕ) → AllByRecursion (IsElement k) xs → slice_get xs w ≡ Some x → row_of k xs / 2 ^ (k * w) % 2 ^ k ≡ x }
    ensures below { (k : ℕ) (xs : List ℕ) → AllByRecursion (IsElement k) xs → row_of k xs < 2 ^ (k * length xs) }
    ensures some { (k words row : ℕ) → row < 2 ^ (k * words) → (xs : List ℕ) × (length xs ≡ words) × AllByRecursion (IsElement k) xs × (row_of k xs ≡ row) }
    ensures only { (k : ℕ) (xs ys : List ℕ) → length xs ≡ length ys → AllByRecursion (IsElement k) xs → AllByRecursion (IsElement k) ys → row_of k xs ≡ row_of k ys → xs ≡ ys }
{}

/// At most one table or fault comes of a text.
pub fn one_table_or_fault()
    ensures { (k n : ℕ) (bytes : List ℕ) → Determined (TableOutcome k n bytes) }
{}

/// Of each text there is a table or a fault.
pub fn some_table_or_fault()
    ensures { (k n : ℕ) (bytes : List ℕ) → (outcome : Result (List ℕ) TableFault) × TableOutcome k n bytes outcome }
{}

/// In one word the polynomial with the coefficients of a function has the function's values.
pub fn coefficients_have_the_values<F: Field>(_field: &F)
    ensures { (v : ℕ → ℕ) (x : ℕ) → IsFunction (F.degree _field.now) v → IsElement (F.degree _field.now) x → value_of (F.degree _field.now) (F.product _field.now) v x ≡ v x }
{}

/// A table has at most one polynomial.
pub fn one_table_polynomial<F: Field>(_field: &F)
    ensures { (words : ℕ) (table : List ℕ) → HasOnePolynomial (F.degree _field.now) (F.product _field.now) words table }
{}

/// A well-formed circuit has at most one table, and its values are elements of the field.
pub fn one_circuit_table()
    ensures only { (circuit : Circuit) (table other : List ℕ) → IsWellFormed circuit → IsTableOf circuit table → IsTableOf circuit other → table ≡ other }
    ensures elements { (circuit : Circuit) (table : List ℕ) → IsWellFormed circuit → IsTableOf circuit table → AreElements circuit.k table }
{}

/// The polynomial of a circuit's table has at each input the circuit's output.
pub fn table_polynomials_are_outputs()
    ensures { (circuit : Circuit) (table : List ℕ) (ts : Terms) → IsWellFormed circuit → IsTableOf circuit table → IsItsPolynomial circuit table ts → HasOutputs circuit ts }
{}
