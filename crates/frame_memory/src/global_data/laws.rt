//! Laws, each the contract of a function that does nothing.

ghost use Rattle.frame_memory.specs.global_data.GlobalBytes.{DataHoldsObjects};

/// With its fixes done, the data holds the objects of static storage.
pub fn data_holds_objects()
    ensures { DataHoldsObjects }
{}
