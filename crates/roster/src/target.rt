// The kind of value that says where a sector of a volume lies.
ghost use Rattle.std.specs.Prelude.{◌≡◌, ◌↔◌, IsTrue};
ghost use Rattle.roster.specs.Targets.{shift_target, same_target, clear_target};
ghost use Rattle.std.proofs.Common.{rules};

use table::kind::Value;

#[derive(Clone, Copy, Debug, Default, PartialEq, Eq)]
pub enum Target {
    // Reads as zeros.
    Zero,
    // Nothing lies here.
    #[default]
    Error,
    // A sector of a listed device.
    Linear { device: u8, sector: u64 },
    // A sector of a listed stripe set.
    Striped { set: u8, offset: u64 },
}

impl Value for Target {
    ghost shift = { shift_target };

    ghost same = { same_target };

    ghost clear = { clear_target };

    ghost lawful = { Prim.search rules };

    fn shifted(self, by: u64) -> Target {
        match self {
            Target::Zero => Target::Zero,
            Target::Error => Target::Error,
            Target::Linear { device, sector } => Target::Linear {
                device,
                sector: sector.wrapping_add(by),
            },
            Target::Striped { set, offset } => Target::Striped {
                set,
                offset: offset.wrapping_add(by),
            },
        }
    }

    fn is_same(self, other: Target) -> bool
        ensures same { result ≡ same_target self other }
        ensures equal { IsTrue result ↔ (self ≡ other) }
    {
        self == other
    }

    fn is_clear(self) -> bool {
        matches!(self, Target::Error)
    }
}
