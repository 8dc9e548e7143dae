//! The first of faults.

ghost use Rattle.std.specs.Prelude.{◌≡◌};
ghost use Rattle.c_typing_faults.specs.Faults as spec;
ghost use Rattle.c_typing_faults.specs.model.Earlier as model;

use crate::{Fault, Kind};

/// The number of a kind.
fn kind_number(kind: Kind) -> u8
    ensures { result ≡ spec.kind_number kind }
{
    match kind {
        Kind::MissingMain => 1,
        Kind::UnknownName => 2,
        Kind::Redeclared => 3,
        Kind::NotDefined => 4,
        Kind::BadType => 5,
        Kind::NotConstant => 6,
        Kind::BadOperand => 7,
        Kind::NotAssignable => 8,
        Kind::BadConversion => 9,
        Kind::NotFunction => 10,
        Kind::BadCall => 11,
        Kind::NoMember => 12,
        Kind::BadLabel => 13,
        Kind::BadJump => 14,
        Kind::BadReturn => 15,
        Kind::BadLiteral => 16,
        Kind::BadInit => 17,
    }
}

/// Whether one fault comes before another.
#[tactic(auto, unfolding(crate::specs::Faults::is_before))]
fn is_before(f: Fault, g: Fault) -> bool
    ensures { result ≡ spec.is_before f g }
{
    if f.at < g.at {
        return true;
    }
    if f.at == g.at {
        return kind_number(f.kind) < kind_number(g.kind);
    }
    false
}

/// The earlier of a fault and another, if there is another.
fn earlier(f: Fault, g: Option<Fault>) -> Fault
    ensures { result ≡ model.earlier f g }
{
    match g {
        None => f,
        Some(g) => { if is_before(f, g) { f } else { g } }
    }
}

/// The first of faults by their places, and of those at one place by the numbers of their kinds. It takes no memory.
pub fn least(faults: &[Fault]) -> Option<Fault>
    ensures { result ≡ spec.head (spec.sort_faults faults.now) }
{
    let mut found = None;
    for fault in faults {
        found = Some(earlier(*fault, found));
    }
    found
}
