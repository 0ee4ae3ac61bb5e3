//! The law of circuits over isomorphic fields, on a function that does nothing.
ghost use Rattle.iso_circuits.specs.Carried.{AreUnitImages, HaveImageOutputs};

/// A circuit whose bases are carried over by an isomorphism has at the images of an input the image of its output; the
/// polynomial basis of a tower is carried over to the list of the images of 1, 2, 4, ..
pub fn isomorphic_circuits()
    ensures outputs { HaveImageOutputs }
    ensures units { AreUnitImages }
{}
