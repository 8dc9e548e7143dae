//! The name of a function.

ghost use Rattle.std.specs.Prelude.{◌≡◌, ◌↔◌, IfOk, IsTrue, bytes_eq};
ghost use Rattle.std.specs.Cmp.{partial_equiv_from_equiv};
ghost use Rattle.std.specs.Cmp.Lexicographic.{nat_list_eq_equiv};

use std::alloc::{AllocError, Global};
use std::marker::Model;

/// The name of a function. Contracts see the list of its bytes, so equal bytes are equal names.
#[derive(Debug, Drop)]
pub struct FunctionName {
    bytes: Vec<u8>,
}

impl Model for FunctionName {
    ghost use Rattle.std.specs.Prelude.{List, ℕ};

    ghost Value = { List ℕ };

    ghost view = { λ n. n.bytes.items };
}

impl FunctionName {
    /// The name of these bytes. It takes no memory.
    pub fn new(bytes: Vec<u8>) -> FunctionName
        ensures { result ≡ bytes.items }
    {
        FunctionName { bytes }
    }

    /// The name of a copy of these bytes. It fails only where memory is short.
    pub fn from_slice(alloc: Global, bytes: &[u8]) -> Result<FunctionName, AllocError>
        ensures { IfOk result (λ n. n ≡ bytes.now) }
    {
        Ok(FunctionName {
            bytes: Vec::from_slice(alloc, bytes)?,
        })
    }

    /// The bytes of the name.
    pub fn as_slice(&self) -> &[u8]
        ensures { result.now ≡ self.now }
    {
        self.bytes.as_slice()
    }

    /// The bytes of the name, which is given up. It takes no memory.
    pub fn into_bytes(self) -> Vec<u8>
        ensures { result.items ≡ self }
    {
        let FunctionName { bytes } = self;
        bytes
    }

    /// An equal name. It fails only where memory is short.
    pub fn copy(&self) -> Result<FunctionName, AllocError>
        ensures { IfOk result (λ n. n ≡ self.now) }
    {
        Ok(FunctionName {
            bytes: self.bytes.clone()?,
        })
    }
}

/// Names are equal exactly where their bytes are.
impl PartialEq for FunctionName {
    ghost eq = { bytes_eq };

    ghost laws = { partial_equiv_from_equiv nat_list_eq_equiv };

    fn eq(&self, other: &FunctionName) -> bool
        ensures eq { result ≡ bytes_eq self.now other.now }
        ensures bytes { IsTrue result ↔ (self.now ≡ other.now) }
    {
        self.as_slice() == other.as_slice()
    }
}

impl Eq for FunctionName {
    ghost laws = { nat_list_eq_equiv };
}
