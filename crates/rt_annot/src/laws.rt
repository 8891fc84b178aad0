//! A law on growth, as the contract of a function.

ghost use Rattle.rt_annot.specs.Reference.{ReferenceStays};

/// A reference stays that of its query as the Dag grows.
pub fn reference_stays()
    ensures { ReferenceStays }
{}
