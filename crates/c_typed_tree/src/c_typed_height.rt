//! The height of typed trees (`specs/c_typed_height/Heights.antt`).
