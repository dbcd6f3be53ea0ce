//! Spare boxes that become live, since relations want them.

ghost use Rattle.std.specs.Prelude.{◌≡◌, None, IfErr, OnOk};
ghost use Rattle.sb_registry.specs.Boxes.{repeated_in};
ghost use Rattle.sb_opening.specs.Naming.{HasLive, IsAbsent, first_absent, is_there};

use crate::codes::Named;
use sb_recover::OpenFault;
use sb_vectors::Vectors;

/// The first code that no box has, live or spare.
fn absent<B: Vectors>(boxes: &B, named: &[Named]) -> Option<u16>
    ensures { result ≡ first_absent (B.meanings boxes.now) named.now }
{
    for one in named {
        if !has_any(boxes, *one) {
            return Some(one.code);
        }
    }
    None
}

/// Whether there is a box of this kind and code, live or spare.
fn has_any<B: Vectors>(boxes: &B, one: Named) -> bool
    ensures { result ≡ is_there (B.meanings boxes.now) one }
{
    boxes.has_code(true, one.method, one.code) || boxes.has_code(false, one.method, one.code)
}

/// Makes the spare boxes of these codes live. Where no box has one of the codes, all stay as they are, and the first such code is told.
pub(crate) fn make_live<B: Vectors>(boxes: &mut B, named: &[Named]) -> Result<(), OpenFault>
    requires unique { repeated_in (B.meanings boxes.old) ≡ None }

    ensures live { OnOk result (HasLive (B.meanings boxes.old) named.now (B.meanings boxes.new)) }
    ensures present { OnOk result (first_absent (B.meanings boxes.old) named.now ≡ None) }
    ensures refused { IfErr result (IsAbsent (first_absent (B.meanings boxes.old) named.now)) }
{
    if let Some(code) = absent(boxes, named) {
        return Err(OpenFault::MissingExtension { code });
    }
    for one in named {
        boxes.register(one.method, one.code)?;
    }
    Ok(())
}
