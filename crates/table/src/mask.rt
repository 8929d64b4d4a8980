// The kind of value that says which volumes hold a sector.
ghost use Rattle.std.specs.Prelude.{◌==◌};
ghost use Rattle.std.proofs.Common.{rules};

use crate::kind::Value;

// Bit h stands for volume h.
#[derive(Clone, Copy, Debug, Default, PartialEq, Eq)]
pub struct Mask {
    pub bits: u32,
}

impl Value for Mask {
    ghost shift = { λ m k. m };

    ghost same = { λ m n. (m.bits == n.bits) };

    ghost clear = { λ m. (m.bits == 0) };

    ghost lawful = { Prim.search rules };

    fn shifted(self, _by: u64) -> Mask {
        self
    }

    fn is_same(self, other: Mask) -> bool {
        self == other
    }

    fn is_clear(self) -> bool {
        self.bits == 0
    }
}
