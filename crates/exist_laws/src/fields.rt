//! Laws of fields. These functions do nothing: their contracts are proved of the definitions alone.
ghost use Rattle.exist_laws.specs.Fields.{HaveDualBases, HaveIsomorphisms};

/// Each basis of a field has its dual basis, and a value that keeps both.
pub fn some_dual_basis()
    ensures { HaveDualBases }
{}

/// From each tower of degree 2 to a field with as many elements there is the isomorphism that takes x and Y to the least roots.
pub fn some_isomorphism()
    ensures { HaveIsomorphisms }
{}
