//! Trees.

ghost use Rattle.std.specs.Prelude.{◌≡◌, ℕ, ◌<◌, List, length, slice_get, Some};
ghost use Rattle.pass_trees.specs.Trees.{TreeLaws};

/// A node with its children, by number from 0.
pub trait Tree: Drop {
    ghost children: { Self → List Self };

    ghost with_child: { Self → ℕ → Self → Self };

    ghost leaf: { Self };

    ghost height: { Self → ℕ };

    ghost refines: { Self → Self → Type 0 };

    /// The number of children.
    fn arity(&self) -> u32
        ensures { result ≡ length (children self.now) };

    /// Takes child k out. A leaf is left in its place. Takes no memory.
    fn take(&mut self, k: u32) -> Self
        requires { k < length (children self.old) }
        ensures child { slice_get (children self.old) k ≡ Some result }
        ensures left { self.new ≡ with_child self.old k leaf };

    /// Puts a child in the place of child k.
    fn put(&mut self, k: u32, child: Self)
        requires { k < length (children self.old) }
        ensures { self.new ≡ with_child self.old k child };

    ghost lawful: { TreeLaws children with_child leaf height refines };
}
