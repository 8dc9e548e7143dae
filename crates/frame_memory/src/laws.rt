//! Laws, each the contract of a function that does nothing.

ghost use Rattle.frame_memory.specs.Laws.{BytesComeBack, NumbersComeBack, NumbersAreRead, PointersAreRead, ValuesHaveBytes, RowsAreThere, LoadsAreRead, RowsArePut, StoresArePut, CopiesArePut, ExtentsGrow, FlatValuesStay, CellsStay, OthersMayChange, FlatObjectsBegin, FlatObjectsEnd};
ghost use Rattle.frame_memory.specs.Examples.{ExampleStands};
ghost use Rattle.frame_memory.specs.PointerLaws.{PointersMove, PointersAnswer};
ghost use Rattle.frame_memory.specs.Machine.{LoadsReadBytes, StoresPutBytes, NumbersOfAccesses};

/// Numbers and their bytes are made of each other.
pub fn bytes_come_back()
    ensures bytes { BytesComeBack }
    ensures numbers { NumbersComeBack }
{}

/// What cells are as a number or as a pointer, their bytes are, and values have bytes.
pub fn cells_are_bytes()
    ensures numbers { NumbersAreRead }
    ensures pointers { PointersAreRead }
    ensures values { ValuesHaveBytes }
{}

/// A load from an object reads the bytes at its address.
pub fn loads_are_read()
    ensures rows { RowsAreThere }
    ensures loads { LoadsAreRead }
{}

/// A store or a copy to an object puts bytes at its address.
pub fn stores_are_put()
    ensures rows { RowsArePut }
    ensures stores { StoresArePut }
    ensures copies { CopiesArePut }
{}

/// Objects begin and end, and bytes that are no live object's may change.
pub fn objects_begin_and_end()
    ensures grow { ExtentsGrow }
    ensures values { FlatValuesStay }
    ensures cells { CellsStay }
    ensures others { OthersMayChange }
    ensures begin { FlatObjectsBegin }
    ensures end { FlatObjectsEnd }
{}

/// What the operators on pointers give, their addresses give as words.
pub fn pointers_are_words()
    ensures moves { PointersMove }
    ensures answers { PointersAnswer }
{}

/// The accesses of the machine read and put bytes of its data and stack.
pub fn accesses_are_bytes()
    ensures loads { LoadsReadBytes }
    ensures stores { StoresPutBytes }
    ensures numbers { NumbersOfAccesses }
{}

/// Bytes stand for a small memory, in which a pointer is an address.
pub fn example_stands()
    ensures { ExampleStands }
{}
